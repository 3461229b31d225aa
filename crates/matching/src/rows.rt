// The rows of one network, by what the other has of their ids, which its table from ids to rows tells.
ghost use Rattle.std.specs.Prelude.{◌≡◌, ◌<◌};
ghost use Rattle.std.proofs.Math.Option.{some};
ghost use Rattle.lists.specs.First.{first_bad};
ghost use Rattle.lists.specs.Gather.{count};
ghost use Rattle.layout.specs.Layout.{node_count, node_offset};
ghost use Rattle.networks.specs.Join.{matched};
ghost use Rattle.routes.specs.Carry.{highest};
ghost use Rattle.reading.specs.House.{house};
ghost use Rattle.reading.specs.Parts.{box_at};
ghost use Rattle.matching.specs.Rows.{owned_once, row_matched, in_other};

use layout::ROUTE_FIELD;
use nodes::{NetworkRecord, own_at, promising_at};
use records::TabledNetwork;
use routes::{Route, route_at, same};

// Whether the node in row i is no own one, or one that the other network does not own.
fn owned_once(network: &NetworkRecord, other: &TabledNetwork, i: usize) -> bool
    requires form { other.now.network.form ≡ network.now.form }
    requires row { i < node_count network.now.bytes.now }
    ensures { result ≡ owned_once network.now.form network.now.bytes.now other.now.network.bytes.now i }
{
    !network.is_own(i) || !other.is_owned(network.node_id(i))
}

// The first row of an own node that the other network owns, too, or the number of rows.
pub fn first_twice(network: &NetworkRecord, other: &TabledNetwork) -> usize
    requires { other.now.network.form ≡ network.now.form }
    ensures { result ≡ first_bad (owned_once network.now.form network.now.bytes.now other.now.network.bytes.now) (node_count network.now.bytes.now) }
{
    let n = network.node_count();
    for i in 0..n {
        if !owned_once(network, other, i) {
            return i;
        }
    }
    n
}

// Whether the node in a row of a network matches an assumption: an own one promises just this route, an input is assumed to hold it.
fn matches(network: &NetworkRecord, row: usize, assumed: Route) -> bool
    requires { row < node_count network.now.bytes.now }
    ensures { let n = network.now in result ≡ matched (house highest) assumed (some (box_at n.form.route n.bytes.now (node_offset n.form n.bytes.now row))) }
{
    let width = network.form.route;
    let b = network.bytes;
    let at = network.node_offset(row);
    if !own_at(b, at) {
        return same(route_at(width, b, at + ROUTE_FIELD), assumed);
    }
    if !promising_at(width, b, at) {
        return false;
    }
    same(route_at(width, b, at + 4 + width), assumed)
}

// Whether the node in row i is an own one, or an input of which the other network says nothing else.
fn row_matched(network: &NetworkRecord, other: &TabledNetwork, i: usize) -> bool
    requires form { other.now.network.form ≡ network.now.form }
    requires row { i < node_count network.now.bytes.now }
    ensures { result ≡ row_matched network.now.form network.now.bytes.now other.now.network.bytes.now i }
{
    if network.is_own(i) {
        return true;
    }
    let id = network.node_id(i);
    if !other.is_boxed(id) {
        return true;
    }
    let assumed = route_at(
        network.form.route,
        network.bytes,
        network.node_offset(i) + ROUTE_FIELD,
    );
    matches(&other.network, other.row_in(id), assumed)
}

// The first row of an input of which the other network says something else, or the number of rows.
pub fn first_unmatched(network: &NetworkRecord, other: &TabledNetwork) -> usize
    requires { other.now.network.form ≡ network.now.form }
    ensures { result ≡ first_bad (row_matched network.now.form network.now.bytes.now other.now.network.bytes.now) (node_count network.now.bytes.now) }
{
    let n = network.node_count();
    for i in 0..n {
        if !row_matched(network, other, i) {
            return i;
        }
    }
    n
}

// Whether a node of the other network has the id of the node in row i.
fn in_other(network: &NetworkRecord, other: &TabledNetwork, i: usize) -> bool
    requires form { other.now.network.form ≡ network.now.form }
    requires row { i < node_count network.now.bytes.now }
    ensures { result ≡ in_other network.now.form network.now.bytes.now other.now.network.bytes.now i }
{
    other.is_boxed(network.node_id(i))
}

// How many nodes have an id that a node of the other network has.
pub fn shared_rows(network: &NetworkRecord, other: &TabledNetwork) -> usize
    requires { other.now.network.form ≡ network.now.form }
    ensures { result ≡ count (in_other network.now.form network.now.bytes.now other.now.network.bytes.now) (node_count network.now.bytes.now) }
{
    let n = network.node_count();
    let mut shared = 0;
    for i in 0..n {
        shared += usize::from(in_other(network, other, i));
    }
    shared
}
