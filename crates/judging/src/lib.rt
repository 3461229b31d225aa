// Judging: the first fault of a proposal by rising id, or a pass; and the line that says it.
#![tactic(auto)]

mod entry;
mod first_fault;
mod text;

pub use entry::{judge, neighbour};
pub use first_fault::search;
use layout::Refusal;
use routes::Route;
pub use text::{LONGEST, LONGEST_NAMING, judge_bytes, longest_input, longest_naming, verdict_line};

// What is named of a box with a fault: the judged count includes it.
#[derive(Clone, Copy)]
pub struct Finding {
    pub node: u16,
    pub count: usize,
    pub route: Route,
}

// The judge's answer: all own boxes judged, the first fault with the route that document 01 gives with it, or a refusal.
#[derive(Clone, Copy)]
pub enum Verdict {
    Pass(usize),
    NotDue(Finding),
    PromiseBroken(Finding),
    DemandUnmet(Finding),
    Refused(Refusal),
}
