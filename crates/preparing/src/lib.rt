// What judging and the lookup of a neighbour's route stand on: their refusals, 1 to 17, with the tables by which a route is found, and
// a route as a part of whichever record holds it.
#![tactic(auto)]

mod lookup;
mod tables;

pub use lookup::{Lookup, Proposal};
pub use tables::prepare;
