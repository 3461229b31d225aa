// What judging and the lookup need: their refusals, 1 to 17, and two tables. In one stands the row of each id, in the other where the
// route of each row stands, so that a sender's route costs a look in each.
ghost use Rattle.std.specs.Prelude.{◌≡◌, ◌≤◌, ◌<◌, replicate};
ghost use Rattle.layout.specs.Form.{list_lead, form_of};
ghost use Rattle.layout.specs.Layout.{node_count};
ghost use Rattle.layout.specs.Refusals.{check_answer};
ghost use Rattle.records.specs.Checked.{CheckedNetwork, CheckedEntries};
ghost use Rattle.records.specs.Rows.{RowsAfter};
ghost use Rattle.preparing.specs.Prepared.{stand_at, placed_in, with_stands, stands_after, lacking_refusal, prepare_refusal};

use entries::{EntriesRecord, check_list};
use layout::{Class, Form, LIST_LEAD, ROUTE_FIELD, ROWS, Refusal, entry_offset};
use nodes::NetworkRecord;
use records::{check_network_rows, place_entries};

// Where the route of the node in row i stands, whose entry, if it is an own box, is in a row of the list.
fn stand_at(network: &NetworkRecord, i: usize, entry: usize) -> usize
    requires { CheckedNetwork network.now.form network.now.bytes.now × (i < node_count network.now.bytes.now) × (entry ≤ 65535) }
    ensures { result ≡ stand_at network.now.form network.now.bytes.now i entry }
{
    if network.is_own(i) {
        return network.bytes.len() + (entry_offset(network.form, LIST_LEAD, entry) + LIST_LEAD);
    }
    network.node_offset(i) + ROUTE_FIELD
}

// Fills the table of where routes stand, from the table of entries.
fn fill_stands(network: &NetworkRecord, places: &[u16; ROWS], stands: &mut [usize; ROWS])
    requires { CheckedNetwork network.now.form network.now.bytes.now }
    ensures { stands.new ≡ with_stands network.now.form network.now.bytes.now (placed_in places.now) stands.old }
{
    for i in 0..network.node_count() {
        stands[i] = stand_at(network, i, usize::from(places[i]));
    }
}

// Number 17, and where that does not apply the table of where routes stand.
fn enter(network: &NetworkRecord, list: &[u8], stands: &mut [usize; ROWS]) -> Result<Form, Refusal>
    requires { CheckedNetwork network.now.form network.now.bytes.now × CheckedEntries network.now.form list_lead list.now }
    ensures numbers { check_answer result ≡ lacking_refusal network.now.form network.now.bytes.now list.now }
    ensures table { stands.new ≡ stands_after network.now.bytes.now list.now result stands.old }
{
    let mut places = [0u16; ROWS];
    let form = network.form;
    let entries = EntriesRecord {
        form,
        lead: LIST_LEAD,
        bytes: list,
    };
    let row = place_entries(network, &entries, &mut places);
    if row < network.node_count() {
        return Err(network.refused_at(Class::NoEntry, row));
    }
    fill_stands(network, &places, stands);
    Ok(form)
}

// Checks a network and a list for judging, and fills two tables: the one from ids to rows, which is lent with zeros, where none of
// 1 to 8 applies, and the one of where routes stand where nothing is refused. Else each is as it was.
pub fn prepare(
    network: &[u8],
    list: &[u8],
    rows: &mut [u16; 65536],
    stands: &mut [usize; ROWS],
) -> Result<Form, Refusal>
    requires { rows.old ≡ replicate 65536 0 }
    ensures numbers { check_answer result ≡ prepare_refusal network.now list.now }
    ensures rows { RowsAfter (form_of network.now) network.now result rows.old rows.new }
    ensures stands { stands.new ≡ stands_after network.now list.now result stands.old }
{
    let form = check_network_rows(network, rows)?;
    check_list(list)?;
    let record = NetworkRecord {
        form,
        bytes: network,
    };
    enter(&record, list, stands)
}
