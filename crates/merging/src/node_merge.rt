// The nodes of two networks by rising id.
ghost use Rattle.std.specs.Prelude.{◌≡◌, ◌≤◌, length};
ghost use Rattle.lists.specs.Laid.{over};
ghost use Rattle.layout.specs.Form.{node_width};
ghost use Rattle.layout.specs.Layout.{node_count};
ghost use Rattle.reading.specs.Parts.{box_bytes};
ghost use Rattle.writing.specs.Rows.{NodeAt};
ghost use Rattle.merging.specs.Front.{front_id};
ghost use Rattle.merging.specs.Merged.{joined_in, nodes_merged, met_at, Left, lower_box};

use crate::front::front_id;
use matching::Pair;
use nodes::own_at;
use writing::put_node;

// Of two nodes with one id the one that stays: an input that the second network owns gives way to its owner.
fn put_meeting(pair: Pair, at: usize, bt: usize, out: &mut [u8]) -> usize
    requires nodes { NodeAt pair.first.form pair.first.bytes.now at × NodeAt pair.first.form pair.second.bytes.now bt }
    requires room { node_width pair.first.form ≤ length out.old }
    ensures size { let t = pair.entry in result ≡ length (box_bytes t.first.form.route (met_at t.first.form t.first.bytes.now at t.second.bytes.now bt)) }
    ensures laid { let t = pair.entry in out.new ≡ over (box_bytes t.first.form.route (met_at t.first.form t.first.bytes.now at t.second.bytes.now bt)) out.old }
{
    let form = pair.first.form;
    let first = pair.first.bytes;
    let second = pair.second.bytes;
    if own_at(first, at) {
        return put_node(form, first, at, out);
    }
    if own_at(second, bt) {
        return put_node(form, second, bt, out);
    }
    put_node(form, first, at, out)
}

// The node at the lower of the fronts i and j, in rows p and q.
fn put_lower(pair: Pair, p: usize, i: usize, q: usize, j: usize, out: &mut [u8]) -> usize
    requires left { Left pair.first.form pair.first.bytes.now pair.second.bytes.now p (node_count pair.first.bytes.now) q (node_count pair.second.bytes.now) }
    requires fronts { (i ≡ front_id pair.first.form pair.first.bytes.now p) × (j ≡ front_id pair.first.form pair.second.bytes.now q) }
    requires room { node_width pair.first.form ≤ length out.old }
    ensures size { let t = pair.entry in result ≡ length (box_bytes t.first.form.route (lower_box t.first.form t.first.bytes.now t.second.bytes.now p q)) }
    ensures laid { let t = pair.entry in out.new ≡ over (box_bytes t.first.form.route (lower_box t.first.form t.first.bytes.now t.second.bytes.now p q)) out.old }
{
    let Pair { first, second } = pair;
    let form = first.form;
    if i < j {
        return put_node(form, first.bytes, first.node_offset(p), out);
    }
    if j < i {
        return put_node(form, second.bytes, second.node_offset(q), out);
    }
    put_meeting(pair, first.node_offset(p), second.node_offset(q), out)
}

// The nodes of both, of which there are so many. Answers how many bytes they are.
pub fn merge_nodes(pair: Pair, nodes: usize, out: &mut [u8]) -> usize
    requires counted { nodes ≡ length (joined_in pair.first.form pair.first.bytes.now pair.second.bytes.now).boxes }
    requires room { length (nodes_merged pair.first.form pair.first.bytes.now pair.second.bytes.now) ≤ length out.old }
    ensures size { let t = pair.entry in result ≡ length (nodes_merged t.first.form t.first.bytes.now t.second.bytes.now) }
    ensures laid { let t = pair.entry in out.new ≡ over (nodes_merged t.first.form t.first.bytes.now t.second.bytes.now) out.old }
{
    let mut p = 0;
    let mut q = 0;
    let mut o = 0;
    for _ in 0..nodes {
        let i = front_id(&pair.first, p);
        let j = front_id(&pair.second, q);
        o += put_lower(pair, p, i, q, j, &mut out[o..]);
        p += usize::from(i <= j);
        q += usize::from(j <= i);
    }
    o
}
