// The whole record of the joint network: its length by the counts, and where there is room its four parts.
ghost use Rattle.std.specs.Prelude.{◌≡◌, ◌≤◌, ◌<◌, length};
ghost use Rattle.lists.specs.Laid.{placed};
ghost use Rattle.reading.specs.Whole.{write_network};
ghost use Rattle.merging.specs.Merged.{joined_in};
ghost use Rattle.joining.specs.Parts.{JoinParts, Counted};

use layout::{HEAD_WIDTH, POLICIES_FIELD};
use matching::Pair;
use merging::{merge_edges, merge_nodes};
use writing::{put_head, put_policies, size_of};

// The four parts, one behind another, where there is room for them. The policies are the first network's.
fn lay_parts(pair: Pair, size: u32, nodes: u16, edges: u16, out: &mut [u8])
    requires counted { Counted pair.first.form pair.first.bytes.now pair.second.bytes.now nodes edges }
    requires room { (size < 16777216) × (size ≤ length out.old) }
    requires join_parts { JoinParts pair.first.form pair.first.bytes.now pair.second.bytes.now size nodes edges }
    ensures { let p = pair.entry in out.new ≡ placed (write_network p.first.form (joined_in p.first.form p.first.bytes.now p.second.bytes.now)) out.old }
{
    let first = pair.first.bytes;
    put_head(
        pair.first.form.version,
        size,
        nodes,
        edges,
        first[POLICIES_FIELD],
        out,
    );
    let a = HEAD_WIDTH + put_policies(first, &mut out[HEAD_WIDTH..]);
    let b = a + merge_nodes(pair, usize::from(nodes), &mut out[a..]);
    merge_edges(pair, usize::from(edges), &mut out[b..]);
}

// The record of the joint network over the start of a buffer, where there is room for it; its length and the room are known before the
// first byte is written. Answers the length.
pub fn lay_joint(pair: Pair, nodes: u16, edges: u16, out: &mut [u8]) -> usize
    requires { Counted pair.first.form pair.first.bytes.now pair.second.bytes.now nodes edges }
    ensures size { let p = pair.entry in result ≡ length (write_network p.first.form (joined_in p.first.form p.first.bytes.now p.second.bytes.now)) }
    ensures laid { let p = pair.entry in out.new ≡ placed (write_network p.first.form (joined_in p.first.form p.first.bytes.now p.second.bytes.now)) out.old }
{
    let size = size_of(
        pair.first.form,
        pair.first.bytes[POLICIES_FIELD],
        nodes,
        edges,
    );
    let short = out.len() < size;
    if short {
        return size;
    }
    lay_parts(pair, size as u32, nodes, edges, out);
    size
}
