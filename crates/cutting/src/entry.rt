// The cutter's entry point: the refusals in their order, and then the record.
ghost use Rattle.std.specs.Prelude.{◌≡◌, length};
ghost use Rattle.lists.specs.Gather.{count};
ghost use Rattle.lists.specs.Laid.{placed};
ghost use Rattle.layout.specs.Layout.{edge_count};
ghost use Rattle.records.specs.Rows.{Filled};
ghost use Rattle.outcomes.specs.Outcomes.{outcome_of};
ghost use Rattle.outcomes.specs.Room.{in_room, record_answer, laid_answer};
ghost use Rattle.cutting.specs.Cutting.{cut_said, cut_records, cut_buffer};
ghost use Rattle.cutting.specs.Stages.{said_of, EnteredOf, AskedOf};
ghost use Rattle.laying.specs.Records.{record_of};
ghost use Rattle.marking.specs.Fragments.{reaching, LeavesOf, FeedsOf};
ghost use Rattle.records.specs.Checked.{CheckedRows, CheckedEntries};
ghost use Rattle.layout.specs.Form.{sheet_lead};

use entries::{EntriesRecord, check_sheet};
use laying::lay;
use layout::{Class, ROWS, Refusal, SHEET_LEAD};
use marking::{Entered, Fragment, Wires, first_inside};
use nodes::NetworkRecord;
use outcomes::laid_in;
use records::{TabledNetwork, check_network_rows, place_entries};

// What is kept of each row, and then the record, or 20 where there is no room for it.
fn cut_agreed(
    fragment: Fragment,
    rows: &[u16; 65536],
    leaves: &[u8; ROWS],
    feeds: &[u8; ROWS],
    edges: usize,
    out: &mut [u8],
) -> Result<usize, Refusal>
    requires filled { Filled fragment.entered.network.form fragment.entered.network.bytes.now rows.now }
    requires edges_value { edges ≡ count (reaching fragment) (edge_count fragment.entered.network.bytes.now) }
    requires leaving { LeavesOf fragment.entered leaves.now × FeedsOf fragment feeds.now }
    ensures answer { outcome_of result ≡ in_room (length out.old) (length (record_of fragment.entry)) }
    ensures buffer { out.new ≡ placed (record_of fragment.entry) out.old }
{
    let mut pieces = [0; ROWS];
    let nodes = fragment.classify_rows(leaves, feeds, &mut pieces);
    let room = out.len();
    let size = lay(fragment, rows, &pieces, nodes, edges, out);
    laid_in(room, size)
}

// Numbers 19 and 20, or the record.
fn cut_asked(fragment: Fragment, rows: &[u16; 65536], out: &mut [u8]) -> Result<usize, Refusal>
    requires filled { Filled fragment.entered.network.form fragment.entered.network.bytes.now rows.now }
    requires entered { EnteredOf fragment × AskedOf fragment }
    ensures answer { outcome_of result ≡ record_answer fragment.entry.entered.network.form (length out.old) (said_of fragment.entry) }
    ensures buffer { out.new ≡ laid_answer fragment.entry.entered.network.form (said_of fragment.entry) out.old }
{
    let network = fragment.entered.network;
    let wires = Wires {
        table: TabledNetwork { network, rows },
        fragments: fragment.fragments,
        k: fragment.k,
    };
    let mut leaves = [0; ROWS];
    let mut feeds = [0; ROWS];
    let edges = wires.mark_wires(&mut leaves, &mut feeds);
    let clash = fragment.entered.first_clash(&leaves);
    if clash < network.node_count() {
        return Err(network.refused_at(Class::NoteDiffers, clash));
    }
    cut_agreed(fragment, rows, &leaves, &feeds, edges, out)
}

// Numbers 18 to 20, or the record.
fn cut_entered(fragment: Fragment, rows: &[u16; 65536], out: &mut [u8]) -> Result<usize, Refusal>
    requires filled { Filled fragment.entered.network.form fragment.entered.network.bytes.now rows.now }
    requires entered { EnteredOf fragment }
    ensures answer { outcome_of result ≡ record_answer fragment.entry.entered.network.form (length out.old) (said_of fragment.entry) }
    ensures buffer { out.new ≡ laid_answer fragment.entry.entered.network.form (said_of fragment.entry) out.old }
{
    let network = fragment.entered.network;
    let k = fragment.k;
    if first_inside(&network, fragment.fragments, k) == network.node_count() {
        return Err(Refusal {
            class: Class::NoSuchOwn,
            place: usize::from(k),
        });
    }
    cut_asked(fragment, rows, out)
}

// Numbers 17 to 20, or the record.
fn cut_checked(
    network: NetworkRecord,
    sheet: &[u8],
    rows: &[u16; 65536],
    k: u8,
    out: &mut [u8],
) -> Result<usize, Refusal>
    requires { CheckedRows network.form network.bytes.now rows.now × CheckedEntries network.form sheet_lead sheet.now }
    ensures answer { outcome_of result ≡ record_answer network.entry.form (length out.old) (cut_said network.entry.form network.entry.bytes.now sheet.now k) }
    ensures buffer { out.new ≡ laid_answer network.entry.form (cut_said network.entry.form network.entry.bytes.now sheet.now k) out.old }
{
    let noted = EntriesRecord {
        form: network.form,
        lead: SHEET_LEAD,
        bytes: sheet,
    };
    let mut entries = [0; ROWS];
    let missing = place_entries(&network, &noted, &mut entries);
    if missing < network.node_count() {
        return Err(network.refused_at(Class::NoEntry, missing));
    }
    let entered = Entered {
        network,
        sheet,
        entries: &entries,
    };
    let mut fragments = [0; ROWS];
    entered.number_rows(&mut fragments);
    let fragment = Fragment {
        entered,
        fragments: &fragments,
        k,
    };
    cut_entered(fragment, rows, out)
}

// Cuts fragment k out of a network by a sheet: the record is laid over the start of the buffer and its length is the answer;
// or the call is refused, and the buffer is as it was.
pub fn cut(network: &[u8], sheet: &[u8], k: u8, out: &mut [u8]) -> Result<usize, Refusal>
    ensures answer { outcome_of result ≡ cut_records network.now sheet.now k (length out.old) }
    ensures buffer { out.new ≡ cut_buffer network.now sheet.now k out.old }
{
    let mut rows = [0; 65536];
    let form = check_network_rows(network, &mut rows)?;
    check_sheet(sheet)?;
    let record = NetworkRecord {
        form,
        bytes: network,
    };
    cut_checked(record, sheet, &rows, k, out)
}
