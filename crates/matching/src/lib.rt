// Matching: what two networks that are to be joined have in common, and whether they agree on it. The nodes of one are looked up in the other
// by its table from ids to rows.
//
// It asks for two records of one form, whose parts are all there; the policies are those of a pair that a check has not refused.
#![tactic(auto)]

mod pair;
mod policies;
mod rows;

pub use pair::Pair;
pub use policies::alike_policies;
pub use rows::{first_twice, first_unmatched, shared_rows};
