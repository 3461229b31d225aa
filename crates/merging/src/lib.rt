// Merging: the nodes and the edges of two networks, laid down as one by rising id and by rising key.
//
// The writers ask for two records of one form that a check has not refused (`Pair`). Which of two nodes with one id stays, `networks` says.
#![tactic(auto)]

mod edge_merge;
mod front;
mod node_merge;

pub use edge_merge::merge_edges;
pub use front::front_id;
pub use node_merge::merge_nodes;
