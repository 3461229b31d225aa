// The row of a box and of an entry by id, found by halving.
ghost use Rattle.std.specs.Prelude.{◌≡◌, ◌+◌, ◌≤◌, max, length};
ghost use Rattle.lists.specs.Rising.{Rising, place};
ghost use Rattle.lists.specs.Stride.{at};
ghost use Rattle.layout.specs.Layout.{EntriesRoom, entry_count};
ghost use Rattle.entries.specs.Entries.{id_at, entry_id};
ghost use Rattle.entries.specs.Once.{room_once, rising_once};

use layout::{ENTRIES_FIELD, ENTRIES_HEAD, Form, entry_offset, node_part, node_width};
use numbers::{stride, u16_at};

// The place of an id among n parts of one size behind a base, whose ids rise; n where no part has it.
fn find(b: &[u8], base: usize, size: usize, n: usize, id: u16) -> usize
    requires { (base ≤ 8388608) × (2 ≤ size) × (size ≤ 64) × (n ≤ 65535) × (at base size n ≤ length b.now) × Rising (id_at b.now base size) n }
    ensures { result ≡ place (id_at b.now base size) id n }
{
    let mut lo = 0;
    let mut hi = n;
    while lo < hi {
        let mid = lo + (hi - lo) / 2;
        let found = u16_at(b, stride(base, size, mid));
        if found == id {
            return mid;
        }
        if found < id {
            lo = mid + 1;
        } else {
            hi = mid;
        }
    }
    n
}

// The bytes of a route list or a sheet whose entries are all there and rise by id, and their form; before an entry's route stand lead bytes.
#[derive(Clone, Copy)]
pub struct EntriesRecord<'a> {
    pub form: Form,
    pub lead: usize,
    pub bytes: &'a [u8],
    pub ghost room: { EntriesRoom form lead bytes.now } by { room_once _ _ _ },
    pub ghost rising: { Rising (entry_id form lead bytes.now) (entry_count bytes.now) } by { rising_once _ _ _ },
}

impl<'a> EntriesRecord<'a> {
    ghost use Rattle.entries.specs.Entries.{entry_of};

    // How many entries the record has.
    pub fn entry_count(&self) -> usize
        ensures { (result ≡ entry_count self.now.bytes.now) × (result ≤ 65535) }
    {
        usize::from(u16_at(self.bytes, ENTRIES_FIELD))
    }

    // The row of the entry for an id, or the number of entries where there is none.
    pub fn entry_of(&self, id: u16) -> usize
        ensures { result ≡ entry_of self.now.form self.now.lead self.now.bytes.now id }
    {
        let size = self.lead + self.form.route;
        find(self.bytes, ENTRIES_HEAD, size, self.entry_count(), id)
    }

    // The same, looked for first in a row where it may be: in a list that has the network's boxes, behind the entry before.
    pub fn entry_near(&self, near: usize, id: u16) -> usize
        ensures { result ≡ entry_of self.now.form self.now.lead self.now.bytes.now id }
    {
        if self.entry_count() <= near {
            return self.entry_of(id);
        }
        if u16_at(self.bytes, entry_offset(self.form, self.lead, near)) != id {
            return self.entry_of(id);
        }
        near
    }
}

// Where the next entry may be, from where it was thought to be and the row of the one before.
pub fn row_behind(near: usize, row: u16) -> usize
    ensures { result ≡ max near (row + 1) }
{
    near.max(usize::from(row) + 1)
}
