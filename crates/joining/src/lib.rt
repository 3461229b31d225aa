// Joining: two networks laid down as one in a lent buffer; and what the joining program writes. No public function has a `requires`.
#![tactic(auto)]

mod entry;
mod tabled;
mod text;
mod whole;

pub use entry::join;
pub use text::{LARGEST, LONGEST, join_bytes, largest_output, longest_input};
