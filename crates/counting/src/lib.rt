// Counting: what a pass carried. The judge's line, and behind a pass how many boxes hold a route, how many of the assumed and the
// promised ones are routes, how many boxes were asked for one, and which hold none though nobody asked for it.
#![tactic(auto)]

mod counts;
mod entry;
mod text;

pub use entry::{LONGEST_CENSUS, census, census_bytes, longest_census};

// What is counted of a network's nodes under a list.
#[derive(Clone, Copy)]
pub enum Counted {
    // own boxes that hold a route
    Holding,
    // inputs, and those that are assumed to hold a route
    Inputs,
    Assumed,
    // promises, and those of a route
    Promises,
    Promised,
    // own boxes that have to hold a route
    Asked,
    // own boxes that hold none though nobody asked for it
    Silent,
}

// The counts of a census.
#[derive(Clone, Copy)]
pub struct Tally {
    // own boxes, and those that hold a route
    pub boxes: usize,
    pub holding: usize,
    // inputs, and those that are assumed to hold a route
    pub inputs: usize,
    pub assumed: usize,
    // promises, and those of a route
    pub promises: usize,
    pub promised: usize,
    // own boxes that have to hold a route
    pub asked: usize,
}
