// Marking: the tables that a cut is read from, by the rows of the network's nodes: fragment numbers, marks of the rows that wires
// leave, and what the fragment keeps of each row. Numbers 18 and 19 are found on the way.
//
// What a function asks of records and tables, its type says (`Entered`, `Fragment`, `Wires`); `first_inside` asks for no more than a network whose
// parts are there.
#![tactic(auto)]

mod fragments;
mod marks;
mod notes;
mod pieces;
mod tables;

pub use fragments::first_inside;
pub use pieces::Kept;
pub use tables::{Entered, Fragment, Wires};
