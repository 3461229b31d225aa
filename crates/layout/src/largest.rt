// How long the largest records are: every count at its bound (document 01, 'Records'). What is read into a room of fixed size,
// and what is written into one, has its size from here.
use crate::forms::{MOST, ROUTE};
use crate::offsets::{
    EDGE_WIDTH, ENTRIES_HEAD, HEAD_WIDTH, LIST_LEAD, NODE_REST, POLICY_WIDTH, SHEET_LEAD,
};

// The greatest counts of edges and of policies, in every form.
pub const MOST_EDGES: usize = 4096;

pub const MOST_POLICIES: usize = 64;

// The places of a table by row: no form has more nodes.
pub const ROWS: usize = 1024;

// The bytes of a node.
const NODE: usize = NODE_REST + ROUTE + ROUTE;

// The head, the policies, the nodes, the edges.
pub const LARGEST_NETWORK: usize = HEAD_WIDTH
    + MOST_POLICIES * POLICY_WIDTH
    + MOST * NODE
    + MOST_EDGES * EDGE_WIDTH;

// The head, and the entries: each has its id before the route.
pub const LARGEST_LIST: usize = ENTRIES_HEAD + MOST * (LIST_LEAD + ROUTE);

// The same, with a fragment number behind each id.
pub const LARGEST_SHEET: usize = ENTRIES_HEAD + MOST * (SHEET_LEAD + ROUTE);
