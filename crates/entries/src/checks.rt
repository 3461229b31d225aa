// Sheets and route lists: numbers 11 to 16.
ghost use Rattle.std.specs.Prelude.{◌≡◌, ◌+◌, ◌≤◌, length};
ghost use Rattle.lists.specs.First.{first_bad};
ghost use Rattle.layout.specs.Form.{Usable};
ghost use Rattle.layout.specs.Layout.{entry_count, entry_offset};
ghost use Rattle.layout.specs.Refusals.{check_answer};
ghost use Rattle.entries.specs.Entries.{entry_formed, entry_ok, fragment_formed, entries_from, entries_refusal, list_refusal, sheet_refusal};

use layout::{
    Class, ENTRIES_FIELD, ENTRIES_HEAD, Form, LIST_LEAD, Refusal, SHEET_LEAD, entry_offset, form_of,
};
use numbers::{u16_at, u32_at};
use routes::route_formed;

// Whether the fragment number of the entry at an offset is well formed. A list's entry has none.
fn fragment_formed(form: Form, lead: usize, b: &[u8], at: usize) -> bool
    requires { at + 3 ≤ length b.now }
    ensures { result ≡ fragment_formed form lead b.now at }
{
    match lead {
        3 => match b[at + 2] {
            0..=63 => true,
            _ => false,
        },
        _ => true,
    }
}

// Whether the entry at an offset is well formed.
fn entry_formed(form: Form, lead: usize, b: &[u8], at: usize) -> bool
    requires { Usable form × (2 ≤ lead) × (at + (lead + form.route) ≤ length b.now) }
    ensures { result ≡ entry_formed form lead b.now at }
{
    if !fragment_formed(form, lead, b, at) {
        return false;
    }
    route_formed(form.route, b, at + lead)
}

// The first of n entries that is ill formed, or n.
fn bad_entry(form: Form, lead: usize, b: &[u8], n: usize) -> usize
    requires { Usable form × (2 ≤ lead) × (lead ≤ 3) × (entry_offset form lead n ≤ length b.now) }
    ensures { result ≡ first_bad (entry_ok form lead b.now) n }
{
    let size = lead + form.route;
    let mut o = ENTRIES_HEAD;
    let mut least: usize = 0;
    for i in 0..n {
        let id = u16_at(b, o) as usize;
        if id < least {
            return i;
        }
        if !entry_formed(form, lead, b, o) {
            return i;
        }
        least = id + 1;
        o += size;
    }
    n
}

// Number 16.
fn check_each(form: Form, lead: usize, b: &[u8], count: usize) -> Result<Form, Refusal>
    requires { Usable form × (2 ≤ lead) × (lead ≤ 3) × (count ≡ entry_count b.now) × (count ≤ 65535) × (entry_offset form lead count ≤ length b.now) }
    ensures { check_answer result ≡ entries_from form lead b.now 6 }
{
    let bad = bad_entry(form, lead, b, count);
    if bad < count {
        return Err(Refusal {
            class: Class::IllEntry,
            place: entry_offset(form, lead, bad),
        });
    }
    Ok(form)
}

// Numbers 13 to 16, and 11 where the record is cut short.
fn check_body(form: Form, lead: usize, b: &[u8]) -> Result<Form, Refusal>
    requires { Usable form × (2 ≤ lead) × (lead ≤ 3) × (7 ≤ length b.now) }
    ensures { check_answer result ≡ entries_from form lead b.now 2 }
{
    let count = u16_at(b, ENTRIES_FIELD) as usize;
    if form.most < count {
        return Err(Refusal {
            class: Class::EntriesCount,
            place: 5,
        });
    }
    let total = entry_offset(form, lead, count);
    if u32_at(b, 0) as usize + 4 != total {
        return Err(Refusal {
            class: Class::EntriesLength,
            place: 0,
        });
    }
    let n = b.len();
    if n < total {
        return Err(Refusal {
            class: Class::EntriesShort,
            place: n,
        });
    }
    if total < n {
        return Err(Refusal {
            class: Class::EntriesBehind,
            place: total,
        });
    }
    check_each(form, lead, b, count)
}

fn check_entries(lead: usize, b: &[u8]) -> Result<Form, Refusal>
    requires { (2 ≤ lead) × (lead ≤ 3) }
    ensures { check_answer result ≡ entries_refusal lead b.now }
{
    let n = b.len();
    if n < 7 {
        return Err(Refusal {
            class: Class::EntriesShort,
            place: n,
        });
    }
    let Some(form) = form_of(b) else {
        return Err(Refusal {
            class: Class::EntriesVersion,
            place: 4,
        });
    };
    check_body(form, lead, b)
}

// Checks a route list.
pub fn check_list(b: &[u8]) -> Result<Form, Refusal>
    ensures { check_answer result ≡ list_refusal b.now }
{
    check_entries(LIST_LEAD, b)
}

// Checks a sheet.
pub fn check_sheet(b: &[u8]) -> Result<Form, Refusal>
    ensures { check_answer result ≡ sheet_refusal b.now }
{
    check_entries(SHEET_LEAD, b)
}
