// The frame of every record: its form, where its parts stand, and the classes by which it is refused.
//
// The functions on offsets ask for a form that is used and for the ten bytes that hold the counts.
#![tactic(auto)]

mod forms;
mod largest;
mod offsets;
mod refusals;

pub use forms::form_of;
pub use largest::{LARGEST_LIST, LARGEST_NETWORK, LARGEST_SHEET, MOST_EDGES, MOST_POLICIES, ROWS};
pub use offsets::{
    EDGE_WIDTH, EDGES_FIELD, ENTRIES_FIELD, ENTRIES_HEAD, HEAD_WIDTH, KIND_FIELD, LIST_LEAD,
    NODES_FIELD, POLICIES_FIELD, ROUTE_FIELD, SHEET_LEAD, VERSION_FIELD, edge_offset, entry_offset,
    node_offset, node_part, node_width, policy_offset, total_of,
};

// What the version of a record decides: its version byte, the bytes of a route, and the greatest number of nodes and of
// entries.
#[derive(Clone, Copy)]
pub struct Form {
    pub version: u8,
    pub route: usize,
    pub most: usize,
}

// The classes of refusal, in the order of their numbers.
#[derive(Clone, Copy)]
pub enum Class {
    Short,
    Version,
    Counts,
    Length,
    Behind,
    IllPolicy,
    IllNode,
    NoOwn,
    IllEdge,
    NoEdgeOut,
    EntriesShort,
    EntriesVersion,
    EntriesCount,
    EntriesLength,
    EntriesBehind,
    IllEntry,
    NoEntry,
    // no own box has the fragment or the id that is asked for
    NoSuchOwn,
    NoteDiffers,
    NoRoom,
    // of two networks that are joined
    OwnedByBoth,
    Unmatched,
    PoliciesDiffer,
    TooMany,
}

// Why a call is refused, and where: the place is an offset, a length, an id, a number asked or a count, as the table has it. It is the error
// of every check and of every call that lays a record.
#[derive(Clone, Copy)]
pub struct Refusal {
    pub class: Class,
    pub place: usize,
}
