// Each own box's entry in a route list or a sheet, found once.
ghost use Rattle.std.specs.Prelude.{◌≡◌, ◌<◌};
ghost use Rattle.lists.specs.First.{first_bad};
ghost use Rattle.lists.specs.Gather.{table_after};
ghost use Rattle.records.specs.Entered.{entered, with_entry};
ghost use Rattle.layout.specs.Layout.{node_count};

use entries::{EntriesRecord, row_behind};
use layout::ROWS;
use nodes::NetworkRecord;

// Stores the row of the entry for the node in row i, where it is an own one with an entry, which is looked for first in the
// row near. Answers whether it is no own one, or has an entry.
fn place_entry(
    network: &NetworkRecord,
    entries: &EntriesRecord,
    found: &mut [u16; ROWS],
    i: usize,
    near: usize,
) -> bool
    requires row { i < node_count network.now.bytes.now }
    requires form { entries.now.form ≡ network.now.form }
    ensures entered { result ≡ entered network.now.form entries.now.lead network.now.bytes.now entries.now.bytes.now i }
    ensures table { found.new ≡ with_entry network.now.form entries.now.lead network.now.bytes.now entries.now.bytes.now i found.old }
{
    if !network.is_own(i) {
        return true;
    }
    let row = entries.entry_near(near, network.node_id(i));
    if entries.entry_count() <= row {
        return false;
    }
    found[i] = row as u16;
    true
}

// Stores the row of each own box's entry, up to the first own box without an entry, and answers that box's row, or the number
// of nodes where every own box has one.
pub fn place_entries(
    network: &NetworkRecord,
    entries: &EntriesRecord,
    found: &mut [u16; ROWS],
) -> usize
    requires { entries.now.form ≡ network.now.form }
    ensures first { result ≡ first_bad (entered network.now.form entries.now.lead network.now.bytes.now entries.now.bytes.now) (node_count network.now.bytes.now) }
    ensures table { found.new ≡ table_after (with_entry network.now.form entries.now.lead network.now.bytes.now entries.now.bytes.now) result found.old }
{
    let n = network.node_count();
    let mut near = 0;
    for i in 0..n {
        if !place_entry(network, entries, found, i, near) {
            return i;
        }
        near = row_behind(near, found[i]);
    }
    n
}
