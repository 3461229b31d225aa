// The rows that cut wires leave, and those that feed the fragment, from one pass over the edges.
ghost use Rattle.std.specs.Prelude.{◌≡◌, true, ◌+◌, ◌≤◌, ◌<◌, length};
ghost use Rattle.lists.specs.Gather.{count, table_after};
ghost use Rattle.layout.specs.Layout.{edge_count, edge_offset};
ghost use Rattle.numbers.specs.BigEndian.{u16_at};
ghost use Rattle.nodes.specs.Node.{row_of};
ghost use Rattle.records.specs.Edge.{boxed};
ghost use Rattle.records.specs.Rows.{marked_by};

use crate::tables::Wires;
use layout::{EDGE_WIDTH, ROWS};
use numbers::u16_at;

impl Wires<'_, '_> {
    ghost use Rattle.marking.specs.Fragments.{crossing, entering};

    // The row of the node whose id stands at an offset.
    fn row_at(self, at: usize) -> usize
        requires { (at + 2 ≤ length self.table.network.bytes.now) × (boxed self.table.network.form self.table.network.bytes.now (u16_at self.table.network.bytes.now at) ≡ true) }
        ensures is { result ≡ row_of self.entry.table.network.form self.entry.table.network.bytes.now (u16_at self.entry.table.network.bytes.now at) }
        ensures within { result < 1024 }
    {
        self.table.row_in(u16_at(self.table.network.bytes, at))
    }

    // Marks the row that the j-th edge leaves, as one that a cut wire leaves and as one that feeds the fragment. Answers whether
    // the edge is one of the fragment's.
    fn mark_wire(self, j: usize, at: usize, leaves: &mut [u8; ROWS], feeds: &mut [u8; ROWS]) -> bool
        requires { (j < edge_count self.table.network.bytes.now) × (at ≡ edge_offset self.table.network.form self.table.network.bytes.now j) }
        ensures kept { result ≡ entering self.entry j }
        ensures left { leaves.new ≡ marked_by self.entry.table.network.form self.entry.table.network.bytes.now (crossing self.entry) j leaves.old }
        ensures fed { feeds.new ≡ marked_by self.entry.table.network.form self.entry.table.network.bytes.now (entering self.entry) j feeds.old }
    {
        let to = self.fragments[self.row_at(at)];
        let row = self.row_at(at + 2);
        let from = self.fragments[row];
        if to != from {
            leaves[row] = 1;
        }
        if to == self.k {
            feeds[row] = 1;
        }
        to == self.k
    }

    // Marks the rows that the edges leave in both tables. Answers how many edges are the fragment's.
    pub fn mark_wires(self, leaves: &mut [u8; ROWS], feeds: &mut [u8; ROWS]) -> usize
        ensures kept { result ≡ count (entering self.entry) (edge_count self.entry.table.network.bytes.now) }
        ensures left { let n = self.entry.table.network in
            leaves.new ≡ table_after (marked_by n.form n.bytes.now (crossing self.entry)) (edge_count n.bytes.now) leaves.old }
        ensures fed { let n = self.entry.table.network in
            feeds.new ≡ table_after (marked_by n.form n.bytes.now (entering self.entry)) (edge_count n.bytes.now) feeds.old }
    {
        let network = self.table.network;
        let n = network.edge_count();
        let mut kept = 0;
        let mut at = network.edge_offset(0);
        for j in 0..n {
            kept += usize::from(self.mark_wire(j, at, leaves, feeds));
            at += EDGE_WIDTH;
        }
        kept
    }
}
