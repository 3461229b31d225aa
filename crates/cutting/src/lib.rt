// Cutting: one fragment of a network, laid down in a lent buffer; and what the cutting program writes.
#![tactic(auto)]

mod entry;
mod text;

pub use entry::cut;
pub use text::{LARGEST, LONGEST, cut_bytes, largest_output, longest_input};
