// The nodes and the edges of the fragment, one behind another: the writer of each is lent what remains of the buffer.
ghost use Rattle.std.specs.Prelude.{◌≡◌, ◌≤◌, length};
ghost use Rattle.lists.specs.Laid.{over};
ghost use Rattle.laying.specs.Pieces.{NotesOfOwn};
ghost use Rattle.laying.specs.Records.{nodes_of, edges_of};

use crate::rows::{lay_edge, lay_node};
use layout::{EDGE_WIDTH, ROWS};
use marking::{Entered, Wires};

// The nodes. Answers how many bytes they are.
pub fn lay_nodes(entered: Entered, pieces: &[u8; ROWS], out: &mut [u8]) -> usize
    requires notes { NotesOfOwn entered.network.form entered.network.bytes.now pieces.now }
    requires room { length (nodes_of entered pieces.now) ≤ length out.old }
    ensures size { result ≡ length (nodes_of entered.entry pieces.now) }
    ensures laid { out.new ≡ over (nodes_of entered.entry pieces.now) out.old }
{
    let n = entered.network.node_count();
    let mut o = 0;
    for i in 0..n {
        o += lay_node(entered, pieces, i, &mut out[o..]);
    }
    o
}

// The edges.
pub fn lay_edges(wires: Wires, out: &mut [u8])
    requires { length (edges_of wires) ≤ length out.old }
    ensures { out.new ≡ over (edges_of wires.entry) out.old }
{
    let network = wires.table.network;
    let n = network.edge_count();
    let mut o = 0;
    let mut at = network.edge_offset(0);
    for j in 0..n {
        o += lay_edge(wires, j, at, &mut out[o..]);
        at += EDGE_WIDTH;
    }
}
