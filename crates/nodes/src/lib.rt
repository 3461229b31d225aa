// Policies and nodes as bytes: whether they are well formed, and what they hold.
//
// The functions ask for the room that they touch, which a check has tested for the whole record.
#![tactic(auto)]

mod nodes;
mod policies;
mod record;

pub use nodes::{bad_node, demand_at, own_at, promising_at};
pub use policies::bad_policy;
pub use record::NetworkRecord;
