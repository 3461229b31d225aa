// Writing: a network record part after part, each part laid over the start of what remains of a lent buffer.
//
// The writers know nothing of why a part is laid. They ask for the room of what they lay, and those that copy a part of
// another record ask that it is well formed there. Proofs/Parts has the law by which a caller that lays head, policies,
// nodes and edges one behind another has written a network.
#![tactic(auto)]

mod heads;
mod rows;

pub use heads::{put_head, put_policies, size_of};
pub use rows::{put_edge, put_input, put_node, put_promised};
