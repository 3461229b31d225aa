// What the fragment keeps of one node and of one edge, over the start of what remains of a lent buffer. Each writer answers how
// many bytes that is.
ghost use Rattle.std.specs.Prelude.{◌≡◌, ◌≤◌, ◌<◌, length};
ghost use Rattle.lists.specs.Laid.{over};
ghost use Rattle.layout.specs.Layout.{node_count, edge_count, edge_offset};
ghost use Rattle.laying.specs.Pieces.{NotesOfOwn};
ghost use Rattle.laying.specs.Records.{node_of, edge_of};

use layout::ROWS;
use marking::{Entered, Kept, Wires};
use numbers::u16_at;
use writing::{put_edge, put_input, put_node, put_promised};

// The node in row i, by what is kept of it.
pub fn lay_node(entered: Entered, pieces: &[u8; ROWS], i: usize, out: &mut [u8]) -> usize
    requires notes { NotesOfOwn entered.network.form entered.network.bytes.now pieces.now }
    requires i_bound { i < node_count entered.network.bytes.now }
    requires room { length (node_of entered pieces.now i) ≤ length out.old }
    ensures size { result ≡ length (node_of entered.entry pieces.now i) }
    ensures laid { out.new ≡ over (node_of entered.entry pieces.now i) out.old }
{
    let network = entered.network;
    let form = network.form;
    let at = network.node_offset(i);
    match Kept::from(pieces[i]) {
        Kept::Nothing => 0,
        Kept::Stays => put_node(form, network.bytes, at, out),
        Kept::Promised => put_promised(
            form,
            network.bytes,
            at,
            entered.sheet,
            entered.note_offset(i),
            out,
        ),
        Kept::Assumed => put_input(
            form,
            network.node_id(i),
            entered.sheet,
            entered.note_offset(i),
            out,
        ),
    }
}

// The j-th edge, which stands at an offset, where its to end is in the fragment.
pub fn lay_edge(wires: Wires, j: usize, at: usize, out: &mut [u8]) -> usize
    requires j_bound { (j < edge_count wires.table.network.bytes.now) × (at ≡ edge_offset wires.table.network.form wires.table.network.bytes.now j) }
    requires room { length (edge_of wires j) ≤ length out.old }
    ensures size { result ≡ length (edge_of wires.entry j) }
    ensures laid { out.new ≡ over (edge_of wires.entry j) out.old }
{
    let bytes = wires.table.network.bytes;
    let to = wires.table.row_in(u16_at(bytes, at));
    if wires.fragments[to] != wires.k {
        return 0;
    }
    put_edge(bytes, at, out)
}
