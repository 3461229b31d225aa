// Routes: which of two is better, what a wire makes of one, whether a demand is met, and how a record holds them.
//
// What is decided of routes has no `requires`. The readers of bytes ask for the room that they touch, which
// their callers have tested for the whole record.
#![tactic(auto)]

mod alike;
mod form;
mod met;
mod order;
mod wire;

pub use alike::{same, same_policy};
pub use form::{policy_at, policy_formed, route_at, route_formed};
pub use met::is_met;
pub use order::better;
pub use wire::{HIGHEST, carry};

// A route that is there.
#[derive(Clone, Copy, PartialEq, Eq)]
pub struct Fields {
    pub preference: u16,
    pub cost: u16,
    pub origin: u16,
    pub tags: u16,
}

// No route is a real value wherever a route stands.
#[derive(Clone, Copy, PartialEq, Eq)]
pub enum Route {
    None,
    Held(Fields),
}

// What a wire does to a route that crosses it. The four masks are sets of tags.
#[derive(Clone, Copy, PartialEq, Eq)]
pub struct Policy {
    pub need: u16,
    pub bar: u16,
    pub clear: u16,
    pub set: u16,
    pub flag: bool,
    pub preference: u16,
    pub added: u16,
}

// What is asked of the route that a box holds.
#[derive(Clone, Copy, PartialEq, Eq)]
pub enum Demand {
    Nothing,
    Hold { ceiling: u16, tags: u16 },
    HoldNone,
}
