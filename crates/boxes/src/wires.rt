// The wires in their order, where those into a box begin, and what each gives the box that it leads to.
ghost use Rattle.std.specs.Prelude.{◌≡◌, ◌+◌};
ghost use Rattle.lists.specs.Best.{best};
ghost use Rattle.routes.specs.Order.{beats};
ghost use Rattle.layout.specs.Layout.{edge_part, edge_offset};
ghost use Rattle.records.specs.Checked.{CheckedNetwork};
ghost use Rattle.boxes.specs.Wires.{WireAt, WireEnd, next_from, row_into, offer_at};

use crate::NextWire;
use layout::{EDGE_WIDTH, policy_offset};
use nodes::NetworkRecord;
use numbers::{stride, u16_at};
use preparing::Lookup;
use routes::{HIGHEST, Route, better, carry, policy_at};

// The wire at an offset. The last one ends where the record ends.
fn wire_from(network: &NetworkRecord, at: usize) -> NextWire
    requires { CheckedNetwork network.now.form network.now.bytes.now × WireEnd network.now.form network.now.bytes.now at }
    ensures { result ≡ next_from network.now.bytes.now at }
{
    if network.bytes.len() <= at {
        return NextWire { at, to: None };
    }
    NextWire {
        at,
        to: Some(u16_at(network.bytes, at)),
    }
}

// The first wire.
pub fn first_wire(network: &NetworkRecord) -> NextWire
    requires { CheckedNetwork network.now.form network.now.bytes.now }
    ensures { result ≡ next_from network.now.bytes.now (edge_part network.now.form network.now.bytes.now) }
{
    wire_from(network, network.edge_offset(0))
}

// The wire behind the one at an offset.
pub fn wire_behind(network: &NetworkRecord, at: usize) -> NextWire
    requires { CheckedNetwork network.now.form network.now.bytes.now × WireAt network.now.form network.now.bytes.now at }
    ensures { result ≡ next_from network.now.bytes.now (at + 5) }
{
    wire_from(network, at + 5)
}

// The row of the first wire to a box with this id or a higher one, found by halving.
fn row_into(network: &NetworkRecord, id: u16) -> usize
    requires { CheckedNetwork network.now.form network.now.bytes.now }
    ensures { result ≡ row_into network.now.form network.now.bytes.now id }
{
    let base = network.node_offset(network.node_count());
    let mut lo = 0;
    let mut hi = network.edge_count();
    while lo < hi {
        let mid = lo + (hi - lo) / 2;
        if u16_at(network.bytes, stride(base, EDGE_WIDTH, mid)) < id {
            lo = mid + 1;
        } else {
            hi = mid;
        }
    }
    lo
}

// The first wire to a box with this id or a higher one: the wires into the box are those from there on that lead to it.
pub fn wire_into(network: &NetworkRecord, id: u16) -> NextWire
    requires { CheckedNetwork network.now.form network.now.bytes.now }
    ensures { result ≡ next_from network.now.bytes.now (edge_offset network.now.form network.now.bytes.now (row_into network.now.form network.now.bytes.now id)) }
{
    wire_from(network, network.edge_offset(row_into(network, id)))
}

// What the wire at an offset gives the box that it leads to.
pub fn offer(lookup: &Lookup<'_, '_>, at: usize) -> Route
    requires { WireAt lookup.now.proposal.network.form lookup.now.proposal.network.bytes.now at }
    ensures { result ≡ offer_at lookup.now.proposal.network.form lookup.now.proposal.network.bytes.now lookup.now.proposal.list.now at }
{
    let network = lookup.proposal.network.bytes;
    let policy = policy_at(network, policy_offset(usize::from(network[at + 4])));
    carry(HIGHEST, policy, lookup.box_route(u16_at(network, at + 2)))
}

// The better of a route and what the wire at an offset gives.
pub fn over_wire(lookup: &Lookup<'_, '_>, at: usize, due: Route) -> Route
    requires { WireAt lookup.now.proposal.network.form lookup.now.proposal.network.bytes.now at }
    ensures { result ≡ best beats due (offer_at lookup.now.proposal.network.form lookup.now.proposal.network.bytes.now lookup.now.proposal.list.now at) }
{
    better(due, offer(lookup, at))
}
