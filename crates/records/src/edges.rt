// Edges as bytes, read by the table from ids to rows.
ghost use Rattle.std.specs.Prelude.{◌≡◌, ◌+◌, ◌*◌, ◌≤◌, ◌<◌, true, length, set};
ghost use Rattle.lists.specs.First.{first_bad};
ghost use Rattle.lists.specs.Gather.{table_after};
ghost use Rattle.lists.specs.Rising.{least};
ghost use Rattle.numbers.specs.BigEndian.{u16_at};
ghost use Rattle.records.specs.Edge.{edge_key, boxed, ends_formed, edge_formed, edge_ok, input_ok};
ghost use Rattle.layout.specs.Layout.{node_count, edge_count, edge_offset};
ghost use Rattle.nodes.specs.Node.{row_of};
ghost use Rattle.records.specs.Rows.{key_after, marked_by, Marked, any_edge};

use crate::TabledNetwork;
use layout::{EDGE_WIDTH, POLICIES_FIELD, ROWS};
use nodes::NetworkRecord;
use numbers::u16_at;

// What the edges are sorted by: the to end, then the from end.
fn edge_key(to: u16, from: u16) -> usize
    ensures { (result ≡ to * 65536 + from) × (result < 4294967296) }
{
    (to as usize) * 65536 + (from as usize)
}

impl<'a, 't> TabledNetwork<'a, 't> {
    // Whether both ends of an edge exist and differ, and the to end is own.
    fn ends_formed(&self, to: u16, from: u16) -> bool
        ensures { result ≡ ends_formed self.now.network.form self.now.network.bytes.now to from }
    {
        self.is_owned(to) && self.is_boxed(from) && to != from
    }

    // Whether the edge at an offset is well formed, whose ends were read.
    fn edge_formed(&self, to: u16, from: u16, at: usize) -> bool
        requires within { at + 5 ≤ length self.now.network.bytes.now }
        requires ends { (to ≡ u16_at self.now.network.bytes.now at) × (from ≡ u16_at self.now.network.bytes.now (at + 2)) }
        ensures { result ≡ edge_formed self.now.network.form self.now.network.bytes.now at }
    {
        let b = self.network.bytes;
        self.ends_formed(to, from) && b[at + 4] < b[POLICIES_FIELD]
    }

    // Marks the row of the node with an id.
    fn mark_left(&self, left: &mut [u8; ROWS], from: u16)
        requires { boxed self.now.network.form self.now.network.bytes.now from ≡ true }
        ensures { left.new ≡ set left.old (row_of self.now.network.form self.now.network.bytes.now from) 1 }
    {
        left[self.row_in(from)] = 1;
    }

    // Reads the j-th edge, which stands at an offset and whose key may be low at least. Where it is in order the row of its from
    // end is marked, and the answer is what the next key may be at least; else nothing is marked. Each end is read once.
    fn read_edge(&self, left: &mut [u8; ROWS], j: usize, at: usize, low: usize) -> Option<usize>
        requires edge { (j < edge_count self.now.network.bytes.now) × (at ≡ edge_offset self.now.network.form self.now.network.bytes.now j) }
        requires least { low ≡ least (edge_key self.now.network.form self.now.network.bytes.now) j }
        ensures next { result ≡ key_after self.now.network.form self.now.network.bytes.now j }
        ensures marks { left.new ≡ marked_by self.now.network.form self.now.network.bytes.now (edge_ok self.now.network.form self.now.network.bytes.now) j left.old }
    {
        let b = self.network.bytes;
        let to = u16_at(b, at);
        let from = u16_at(b, at + 2);
        let key = edge_key(to, from);
        if key < low {
            return None;
        }
        if !self.edge_formed(to, from, at) {
            return None;
        }
        self.mark_left(left, from);
        Some(key + 1)
    }

    // The first edge that is ill formed or does not rise, or the number of edges. Marks the rows that the edges before it leave.
    pub fn bad_edge(&self, left: &mut [u8; ROWS]) -> usize
        ensures bad { result ≡ first_bad (edge_ok self.now.network.form self.now.network.bytes.now) (edge_count self.now.network.bytes.now) }
        ensures marks { left.new ≡ table_after (marked_by self.now.network.form self.now.network.bytes.now any_edge) result left.old }
    {
        let n = self.network.edge_count();
        let mut o = self.network.edge_offset(0);
        let mut low = 0;
        for j in 0..n {
            let Some(next) = self.read_edge(left, j, o, low) else {
                return j;
            };
            low = next;
            o += EDGE_WIDTH;
        }
        n
    }
}

// Whether the node in row i is an own one, or an input that an edge leaves.
fn input_left(network: &NetworkRecord, left: &[u8; ROWS], i: usize) -> bool
    requires { (i < node_count network.now.bytes.now) × Marked network.now.form network.now.bytes.now any_edge (edge_count network.now.bytes.now) left.now }
    ensures { result ≡ input_ok network.now.form network.now.bytes.now i }
{
    network.is_own(i) || left[i] == 1
}

// The first node that is an input without an edge out, or the number of nodes.
pub fn bad_input(network: &NetworkRecord, left: &[u8; ROWS]) -> usize
    requires { Marked network.now.form network.now.bytes.now any_edge (edge_count network.now.bytes.now) left.now }
    ensures { result ≡ first_bad (input_ok network.now.form network.now.bytes.now) (node_count network.now.bytes.now) }
{
    let n = network.node_count();
    for i in 0..n {
        if !input_left(network, left, i) {
            return i;
        }
    }
    n
}
