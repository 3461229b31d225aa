// Tracing: where a box's route started. The boxes back from it over the wires, each with its route, to one that holds its own initial route
// or an assumed one.
#![tactic(auto)]

mod entry;
mod senders;
mod walk;

pub use entry::{LONGEST_TRAIL, longest_trail, trail, trail_bytes};
