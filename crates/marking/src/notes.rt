// The note of a row, and number 19: a promise that is not the note of a node that a cut wire leaves.
ghost use Rattle.std.specs.Prelude.{◌≡◌, true, ◌+◌, ◌≤◌, ◌<◌, length};
ghost use Rattle.lists.specs.First.{first_bad};
ghost use Rattle.layout.specs.Layout.{node_count};
ghost use Rattle.nodes.specs.Node.{is_own};
ghost use Rattle.marking.specs.Pieces.{note_offset};
ghost use Rattle.marking.specs.Tables.{unclashed};

use crate::tables::Entered;
use layout::{ROWS, SHEET_LEAD, entry_offset};
use nodes::promising_at;
use routes::{route_at, same};

impl Entered<'_> {
    ghost use Rattle.marking.specs.Fragments.{LeavesOf};

    // The offset in the sheet of the note of the own node in row i.
    pub fn note_offset(self, i: usize) -> usize
        requires { (i < node_count self.network.bytes.now) × (is_own self.network.form self.network.bytes.now i ≡ true) }
        ensures { (result ≡ note_offset self.entry.network.form self.entry.entries.now i) × (result + self.entry.network.form.route ≤ length self.entry.sheet.now) }
    {
        let entry = usize::from(self.entries[i]);
        entry_offset(self.network.form, SHEET_LEAD, entry) + SHEET_LEAD
    }

    // Whether the node in row i is no own one, or none that a cut wire leaves, or promises nothing but its note.
    fn keeps_promise(self, leaves: &[u8; ROWS], i: usize) -> bool
        requires { (i < node_count self.network.bytes.now) × LeavesOf self leaves.now }
        ensures { result ≡ unclashed self.entry.network.form self.entry.network.bytes.now self.entry.sheet.now i }
    {
        if !self.network.is_own(i) {
            return true;
        }
        if leaves[i] == 0 {
            return true;
        }
        let width = self.network.form.route;
        let at = self.network.node_offset(i);
        if !promising_at(width, self.network.bytes, at) {
            return true;
        }
        let note = self.note_offset(i);
        same(
            route_at(width, self.network.bytes, at + 4 + width),
            route_at(width, self.sheet, note),
        )
    }

    // The first row that is an own node which a cut wire leaves and whose promise is not its note, or the number of rows.
    pub fn first_clash(self, leaves: &[u8; ROWS]) -> usize
        requires { LeavesOf self leaves.now }
        ensures { result ≡ first_bad (unclashed self.entry.network.form self.entry.network.bytes.now self.entry.sheet.now) (node_count self.entry.network.bytes.now) }
    {
        let n = self.network.node_count();
        for i in 0..n {
            if !self.keeps_promise(leaves, i) {
                return i;
            }
        }
        n
    }
}
