// One own box and the wires into it: where they stand, what its due route starts from, what each wire gives it, and its first fault.
#![tactic(auto)]

mod own;
mod wires;

pub use own::{fault_at, own_box};
use routes::Route;
pub use wires::{first_wire, offer, over_wire, wire_behind, wire_into};

// What is wrong at one box: the due route comes before the promise, and the promise before the demand.
#[derive(Clone, Copy)]
pub enum Fault {
    Due(Route),
    Promise(Route),
    Demand(Route),
}

// An own box with its initial route.
#[derive(Clone, Copy)]
pub struct OwnBox {
    pub node: u16,
    pub initial: Route,
}

// The wire that is looked at next: its offset, and its to end, which is read once. Behind the last wire there is no to end.
#[derive(Clone, Copy)]
pub struct NextWire {
    pub at: usize,
    pub to: Option<u16>,
}
