// The counts, row by row.
ghost use Rattle.std.specs.Prelude.{◌≡◌, true, false, cond, ◌+◌, ◌≤◌, ◌<◌, length};
ghost use Rattle.lists.specs.Filter.{holds};
ghost use Rattle.routes.specs.Carry.{highest};
ghost use Rattle.networks.specs.Silence.{is_route};
ghost use Rattle.networks.specs.Solution.{mapping};
ghost use Rattle.layout.specs.Layout.{node_count};
ghost use Rattle.nodes.specs.Node.{node_id, is_own};
ghost use Rattle.reading.specs.Asking.{asks_route, asks_none};
ghost use Rattle.reading.specs.House.{house};
ghost use Rattle.reading.specs.Parts.{promise_at, demand_at};
ghost use Rattle.reading.specs.Rows.{own_in, input_in};
ghost use Rattle.reading.specs.Whole.{read_network, read_list};
ghost use Rattle.counting.specs.Counted.{own_counted, input_counted, counted_at, counted_in};
ghost use Rattle.counting.specs.declared.Counted.TheVariants.{Silent};

use crate::Counted;
use nodes::{NetworkRecord, demand_at, promising_at};
use preparing::Proposal;
use routes::{Demand, Route, route_at};

// Whether a route is there.
fn is_route(route: Route) -> bool
    ensures { result ≡ is_route (house highest) route }
{
    matches!(route, Route::Held(_))
}

// Whether the node in a row holds a route: an own box by the list, an input by assumption.
fn carries(proposal: &Proposal<'_, '_>, i: usize) -> bool
    requires { i < node_count proposal.now.network.bytes.now }
    ensures { let n = proposal.now.network in let list = read_list n.form proposal.now.list.now in
        result ≡ is_route (house highest) (mapping (house highest) (read_network n.form n.bytes.now) list (node_id n.form n.bytes.now i)) }
{
    is_route(route_at(proposal.network.form.route, proposal.row_part(i), 0))
}

// Whether the own box at an offset promises a route.
fn promises_route(network: &NetworkRecord, at: usize) -> bool
    requires { at + (9 + network.now.form.route + network.now.form.route) ≤ length network.now.bytes.now }
    ensures { result ≡ holds (is_route (house highest)) (promise_at network.now.form.route network.now.bytes.now (at + 3 + network.now.form.route)) }
{
    let width = network.form.route;
    let bytes = network.bytes;
    promising_at(width, bytes, at) && is_route(route_at(width, bytes, at + 4 + width))
}

// Whether the own box at an offset has to hold a route.
fn asks_route(network: &NetworkRecord, at: usize) -> bool
    requires { at + (9 + network.now.form.route + network.now.form.route) ≤ length network.now.bytes.now }
    ensures { result ≡ asks_route (demand_at network.now.bytes.now (at + 4 + network.now.form.route + network.now.form.route)) }
{
    let demand = demand_at(network.form.route, network.bytes, at);
    matches!(demand, Demand::Hold { .. })
}

// Whether it has to hold none.
fn asks_none(network: &NetworkRecord, at: usize) -> bool
    requires { at + (9 + network.now.form.route + network.now.form.route) ≤ length network.now.bytes.now }
    ensures { result ≡ asks_none (demand_at network.now.bytes.now (at + 4 + network.now.form.route + network.now.form.route)) }
{
    let demand = demand_at(network.form.route, network.bytes, at);
    matches!(demand, Demand::HoldNone)
}

// Whether the own box in a row holds no route though nobody asked for its silence.
fn is_overlooked(proposal: &Proposal<'_, '_>, i: usize) -> bool
    requires { (i < node_count proposal.now.network.bytes.now) × (is_own proposal.now.network.form proposal.now.network.bytes.now i ≡ true) }
    ensures { result ≡ own_counted Silent (read_list proposal.now.network.form proposal.now.list.now) (own_in proposal.now.network.form proposal.now.network.bytes.now i) }
{
    let network = &proposal.network;
    !carries(proposal, i) && !asks_none(network, network.node_offset(i))
}

// Whether the own box in a row is counted.
fn own_counted(proposal: &Proposal<'_, '_>, what: Counted, i: usize) -> bool
    requires { (i < node_count proposal.now.network.bytes.now) × (is_own proposal.now.network.form proposal.now.network.bytes.now i ≡ true) }
    ensures { result ≡ own_counted what (read_list proposal.now.network.form proposal.now.list.now) (own_in proposal.now.network.form proposal.now.network.bytes.now i) }
{
    let network = &proposal.network;
    let at = network.node_offset(i);
    match what {
        Counted::Holding => carries(proposal, i),
        Counted::Inputs => false,
        Counted::Assumed => false,
        Counted::Promises => promising_at(network.form.route, network.bytes, at),
        Counted::Promised => promises_route(network, at),
        Counted::Asked => asks_route(network, at),
        Counted::Silent => is_overlooked(proposal, i),
    }
}

// Whether the input in a row is counted.
fn input_counted(proposal: &Proposal<'_, '_>, what: Counted, i: usize) -> bool
    requires { (i < node_count proposal.now.network.bytes.now) × (is_own proposal.now.network.form proposal.now.network.bytes.now i ≡ false) }
    ensures { result ≡ input_counted what (input_in proposal.now.network.form proposal.now.network.bytes.now i) }
{
    match what {
        Counted::Holding => false,
        Counted::Inputs => true,
        Counted::Assumed => carries(proposal, i),
        Counted::Promises => false,
        Counted::Promised => false,
        Counted::Asked => false,
        Counted::Silent => false,
    }
}

// Whether the node in a row is counted.
pub fn is_counted(proposal: &Proposal<'_, '_>, what: Counted, i: usize) -> bool
    requires { i < node_count proposal.now.network.bytes.now }
    ensures { result ≡ counted_at proposal.now.network.form proposal.now.network.bytes.now proposal.now.list.now what i }
{
    if proposal.network.is_own(i) {
        return own_counted(proposal, what, i);
    }
    input_counted(proposal, what, i)
}

// How many of the nodes are counted.
pub fn count_rows(proposal: &Proposal<'_, '_>, what: Counted) -> usize
    ensures { result ≡ counted_in proposal.now.network.form proposal.now.network.bytes.now proposal.now.list.now what }
{
    let mut counted = 0;
    for i in 0..proposal.network.node_count() {
        if is_counted(proposal, what, i) {
            counted += 1;
        }
    }
    counted
}
