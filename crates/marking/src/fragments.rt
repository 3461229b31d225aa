// The fragment number of every row of the network's nodes, and number 18.
ghost use Rattle.std.specs.Prelude.{◌≡◌, ◌<◌};
ghost use Rattle.lists.specs.First.{first_bad};
ghost use Rattle.lists.specs.Gather.{table_after};
ghost use Rattle.layout.specs.Layout.{node_count};
ghost use Rattle.marking.specs.Tables.{outside, row_fragment, with_fragment};

use crate::tables::Entered;
use layout::{ROWS, SHEET_LEAD, entry_offset};
use nodes::NetworkRecord;

impl Entered<'_> {
    // The fragment number of row i: an own node's by its entry, or 64 for an input, which is no fragment's number.
    fn fragment_of(self, i: usize) -> u8
        requires { i < node_count self.network.bytes.now }
        ensures { result ≡ row_fragment self.entry.network.form self.entry.network.bytes.now self.entry.sheet.now i }
    {
        if !self.network.is_own(i) {
            return 64;
        }
        let entry = usize::from(self.entries[i]);
        self.sheet[entry_offset(self.network.form, SHEET_LEAD, entry) + 2]
    }

    // Stores the fragment number of each row.
    pub fn number_rows(self, fragments: &mut [u8; ROWS])
        ensures { let n = self.entry.network in
            fragments.new ≡ table_after (with_fragment n.form n.bytes.now self.entry.sheet.now) (node_count n.bytes.now) fragments.old }
    {
        let n = self.network.node_count();
        for i in 0..n {
            fragments[i] = self.fragment_of(i);
        }
    }
}

// Whether the node in row i is no own node of fragment k.
fn is_outside(network: &NetworkRecord, fragments: &[u8; ROWS], k: u8, i: usize) -> bool
    requires { i < node_count network.now.bytes.now }
    ensures { result ≡ outside network.now.form network.now.bytes.now fragments.now k i }
{
    fragments[i] != k || !network.is_own(i)
}

// The first row that is an own node of fragment k, or the number of rows.
pub fn first_inside(network: &NetworkRecord, fragments: &[u8; ROWS], k: u8) -> usize
    ensures { result ≡ first_bad (outside network.now.form network.now.bytes.now fragments.now k) (node_count network.now.bytes.now) }
{
    let n = network.node_count();
    for i in 0..n {
        if !is_outside(network, fragments, k, i) {
            return i;
        }
    }
    n
}
