// Laying: a fragment's record, laid down part after part in what remains of a lent buffer. What stands here is which piece of
// a row is laid; the bytes of the pieces are `writing`'s.
//
// It asks for what the types of `marking` say: records that a check has not refused, and the tables by their rows.
#![tactic(auto)]

mod parts;
mod rows;
mod whole;

pub use whole::lay;
