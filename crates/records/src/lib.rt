// Network records: every byte string is a network, or is refused by number and place; the table from ids to rows, and the
// table of the own boxes' entries in a sheet or a list.
//
// The checks have no `requires` but for the table that is lent with zeros. What reads a part of a record asks for a record
// that a check has not refused.
#![tactic(auto)]

mod edges;
mod entered;
mod filling;
mod network;
mod rows;

pub use entered::place_entries;
pub use filling::fill_rows;
pub use network::{check_network, check_network_rows};
pub use rows::TabledNetwork;
