// Sheets and route lists: every byte string is one, or is refused by number and place; and the lookup of an entry.
//
// The checks have no `requires`. The lookups ask for a record that a check has not refused.
#![tactic(auto)]

mod checks;
mod lookup;

pub use checks::{check_list, check_sheet};
pub use lookup::{EntriesRecord, row_behind};
