// Where the parts of a record stand.
ghost use Rattle.std.specs.Prelude.{◌≡◌, ◌+◌, ◌*◌, ◌≤◌, ◌<◌, length};
ghost use Rattle.layout.specs.Form.{Usable, node_width};
ghost use Rattle.layout.specs.Layout.{policy_offset, node_part, node_offset, edge_offset, entry_offset, total};

use crate::Form;
use numbers::{stride, u16_at};

// Where the fields of a network's head stand, behind its length of four bytes, and how many bytes a head has.
pub const VERSION_FIELD: usize = 4;

pub const NODES_FIELD: usize = 5;

pub const EDGES_FIELD: usize = 7;

pub const POLICIES_FIELD: usize = 9;

pub const HEAD_WIDTH: usize = 10;

// Where a list or a sheet has its count, how many bytes stand before its entries, and how many before an entry's route: the id, and
// in a sheet the fragment number.
pub const ENTRIES_FIELD: usize = 5;

pub const ENTRIES_HEAD: usize = 7;

pub const LIST_LEAD: usize = 2;

pub const SHEET_LEAD: usize = 3;

// Where the kind and the route of a node stand, behind its id of two bytes. The other fields follow by the width of a route.
pub const KIND_FIELD: usize = 2;

pub const ROUTE_FIELD: usize = 3;

// The bytes of a policy, of an edge, and of a node beside its two routes.
pub const POLICY_WIDTH: usize = 13;

pub const EDGE_WIDTH: usize = 5;

pub const NODE_REST: usize = 9;

// The offset of the i-th entry of a list or a sheet; behind the last one the record ends.
pub fn entry_offset(form: Form, lead: usize, i: usize) -> usize
    requires { Usable form × (lead ≤ 3) × (i ≤ 65535) }
    ensures { result ≡ entry_offset form lead i }
{
    stride(ENTRIES_HEAD, lead + form.route, i)
}

// The offset of the i-th policy of a network; behind the last one the nodes begin.
pub fn policy_offset(i: usize) -> usize
    requires { i ≤ 65535 }
    ensures { (result ≡ policy_offset i) × (10 ≤ result) × (result ≤ 13 * i + 10) }
{
    HEAD_WIDTH + POLICY_WIDTH * i
}

// The offset of the first node.
pub fn node_part(b: &[u8]) -> usize
    requires { 10 ≤ length b.now }
    ensures { (result ≡ node_part b.now) × (10 ≤ result) × (result ≤ 3325) }
{
    policy_offset(usize::from(b[POLICIES_FIELD]))
}

// The bytes of a node, which has its fields within it.
pub fn node_width(form: Form) -> usize
    requires { Usable form }
    ensures { (result ≡ node_width form) × (9 + form.route + form.route ≤ result) × (result ≤ 64) }
{
    NODE_REST + form.route + form.route
}

// The offset of the i-th node; behind the last one the edges begin.
pub fn node_offset(form: Form, b: &[u8], i: usize) -> usize
    requires { Usable form × (10 ≤ length b.now) × (i ≤ 65535) }
    ensures { (result ≡ node_offset form b.now i) × (result ≤ 4197629) }
{
    stride(node_part(b), node_width(form), i)
}

// The offset of the i-th edge; behind the last one the record ends.
pub fn edge_offset(form: Form, b: &[u8], i: usize) -> usize
    requires { Usable form × (10 ≤ length b.now) × (i ≤ 65535) }
    ensures { (result ≡ edge_offset form b.now i) × (result ≤ 8391933) }
{
    stride(
        node_offset(form, b, u16_at(b, NODES_FIELD) as usize),
        EDGE_WIDTH,
        i,
    )
}

// The length of a network record by its counts.
pub fn total_of(form: Form, b: &[u8]) -> usize
    requires { Usable form × (10 ≤ length b.now) }
    ensures { result ≡ total form b.now }
{
    edge_offset(form, b, u16_at(b, EDGES_FIELD) as usize)
}
