// What a cut is read by: records that a check has not refused, with tables by the rows of the network's nodes.
ghost use Rattle.layout.specs.Form.{sheet_lead};
ghost use Rattle.records.specs.Checked.{CheckedNetwork, CheckedEntries};
ghost use Rattle.records.specs.Entered.{EntryRows};
ghost use Rattle.records.specs.Once.{network_once, entries_once, entry_rows_once};
ghost use Rattle.marking.specs.Tables.{Numbered};
ghost use Rattle.marking.specs.Once.{numbered_once};

use layout::ROWS;
use nodes::NetworkRecord;
use records::TabledNetwork;

// A network and a sheet with an entry for each of its own boxes, whose row the table has at the box's row.
#[derive(Clone, Copy)]
pub struct Entered<'a> {
    pub network: NetworkRecord<'a>,
    pub sheet: &'a [u8],
    pub entries: &'a [u16; ROWS],
    pub ghost checked: { CheckedNetwork network.form network.bytes.now } by { network_once _ _ },
    pub ghost formed: { CheckedEntries network.form sheet_lead sheet.now } by { entries_once _ _ _ },
    pub ghost noted: { EntryRows network.form sheet_lead network.bytes.now sheet.now entries.now } by { entry_rows_once _ _ _ _ _ },
}

// Fragment k of such a network, by the fragment number of each row.
#[derive(Clone, Copy)]
pub struct Fragment<'a> {
    pub entered: Entered<'a>,
    pub fragments: &'a [u8; ROWS],
    pub k: u8,
    pub ghost numbered: { Numbered entered.network.form entered.network.bytes.now entered.sheet.now fragments.now } by { numbered_once _ _ _ _ },
}

// The wires of a network beside fragment k, whatever numbers its rows have: the row of each id says where a wire's ends are.
#[derive(Clone, Copy)]
pub struct Wires<'a, 't> {
    pub table: TabledNetwork<'a, 't>,
    pub fragments: &'a [u8; ROWS],
    pub k: u8,
    pub ghost checked: { CheckedNetwork table.network.form table.network.bytes.now } by { network_once _ _ },
}
