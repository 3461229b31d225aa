// How the table from ids to rows is filled.
ghost use Rattle.std.specs.Prelude.{◌≡◌, replicate};
ghost use Rattle.records.specs.Rows.{Filled};

use nodes::NetworkRecord;

// Fills a table of zeros: at an id one more than the row of the node with that id, or 0 where no node has it. Rows are entered from
// the last to the first, so that of two nodes with one id the first stays.
pub fn fill_rows(network: &NetworkRecord, rows: &mut [u16; 65536])
    requires { rows.old ≡ replicate 65536 0 }
    ensures { Filled network.now.form network.now.bytes.now rows.new }
{
    for i in (0..network.node_count()).rev() {
        let id = usize::from(network.node_id(i));
        rows[id] = (i + 1) as u16;
    }
}
