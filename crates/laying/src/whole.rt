// The whole record of a fragment: its length by the counts, and where there is room its four parts.
ghost use Rattle.std.specs.Prelude.{◌≡◌, ◌≤◌, ◌<◌, length};
ghost use Rattle.lists.specs.Gather.{count};
ghost use Rattle.lists.specs.Laid.{placed};
ghost use Rattle.layout.specs.Layout.{node_count, edge_count};
ghost use Rattle.records.specs.Rows.{Filled};
ghost use Rattle.marking.specs.Fragments.{kept_of, reaching, PiecesOf};
ghost use Rattle.laying.specs.Pieces.{NotesOfOwn};
ghost use Rattle.laying.specs.Records.{record_of, PartsOf};

use crate::parts::{lay_edges, lay_nodes};
use layout::{HEAD_WIDTH, POLICIES_FIELD, ROWS};
use marking::{Fragment, Wires};
use records::TabledNetwork;
use writing::{put_head, put_policies, size_of};

// The four parts, one behind another, where there is room for them.
fn lay_parts(
    fragment: Fragment,
    rows: &[u16; 65536],
    pieces: &[u8; ROWS],
    size: u32,
    nodes: u16,
    edges: u16,
    out: &mut [u8],
)
    requires notes { NotesOfOwn fragment.entered.network.form fragment.entered.network.bytes.now pieces.now }
    requires filled { Filled fragment.entered.network.form fragment.entered.network.bytes.now rows.now }
    requires room { (size < 16777216) × (size ≤ length out.old) }
    requires fragment_parts { PartsOf fragment pieces.now size nodes edges }
    ensures { out.new ≡ placed (record_of fragment.entry) out.old }
{
    let network = fragment.entered.network;
    put_head(
        network.form.version,
        size,
        nodes,
        edges,
        network.bytes[POLICIES_FIELD],
        out,
    );
    let a = HEAD_WIDTH + put_policies(network.bytes, &mut out[HEAD_WIDTH..]);
    let b = a + lay_nodes(fragment.entered, pieces, &mut out[a..]);
    let wires = Wires {
        table: TabledNetwork { network, rows },
        fragments: fragment.fragments,
        k: fragment.k,
    };
    lay_edges(wires, &mut out[b..]);
}

// The record of the fragment over the start of a buffer, where there is room for it; its length and the room are known before the
// first byte is written. Answers the length.
pub fn lay(
    fragment: Fragment,
    rows: &[u16; 65536],
    pieces: &[u8; ROWS],
    nodes: usize,
    edges: usize,
    out: &mut [u8],
) -> usize
    requires tables { PiecesOf fragment pieces.now × Filled fragment.entered.network.form fragment.entered.network.bytes.now rows.now }
    requires nodes_value { nodes ≡ count (kept_of fragment) (node_count fragment.entered.network.bytes.now) }
    requires edges_value { edges ≡ count (reaching fragment) (edge_count fragment.entered.network.bytes.now) }
    ensures size { result ≡ length (record_of fragment.entry) }
    ensures laid { out.new ≡ placed (record_of fragment.entry) out.old }
{
    let nodes = nodes as u16;
    let edges = edges as u16;
    let network = fragment.entered.network;
    let size = size_of(network.form, network.bytes[POLICIES_FIELD], nodes, edges);
    if out.len() < size {
        return size;
    }
    lay_parts(fragment, rows, pieces, size as u32, nodes, edges, out);
    size
}
