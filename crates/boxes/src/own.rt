// An own box: what its due route starts from, and what is wrong there.
ghost use Rattle.std.specs.Prelude.{◌≡◌, ◌+◌, ◌≤◌, ◌<◌, length, true};
ghost use Rattle.networks.specs.Judge.{held};
ghost use Rattle.layout.specs.Layout.{node_count};
ghost use Rattle.nodes.specs.Node.{is_own};
ghost use Rattle.reading.specs.Parts.{demand_at};
ghost use Rattle.boxes.specs.OwnBox.{own_box_at, finding_of, unmet_of, fault_of, fault_at};

use crate::{Fault, OwnBox};
use nodes::{NetworkRecord, demand_at, promising_at};
use numbers::u16_at;
use preparing::Proposal;
use routes::{Route, is_met, route_at, same};

// The own box in a row.
pub fn own_box(network: &NetworkRecord, row: usize) -> OwnBox
    requires { row < node_count network.now.bytes.now }
    ensures { result ≡ own_box_at network.now.form network.now.bytes.now row }
{
    let at = network.node_offset(row);
    OwnBox {
        node: u16_at(network.bytes, at),
        initial: route_at(network.form.route, network.bytes, at + 3),
    }
}

// Whether the route that the box at an offset holds leaves its demand unmet.
fn unmet(width: usize, network: &[u8], at: usize, held: Route) -> Option<Fault>
    requires { at + (9 + width + width) ≤ length network.now }
    ensures { finding_of result ≡ unmet_of (demand_at network.now (at + 4 + width + width)) held }
{
    if is_met(demand_at(width, network, at), held) {
        return None;
    }
    Some(Fault::Demand(held))
}

// The first fault of the own box in a row, which holds one route and is due another: the due route comes before the
// promise, and the promise before the demand.
fn fault_of(network: &NetworkRecord, row: usize, held: Route, due: Route) -> Option<Fault>
    requires { row < node_count network.now.bytes.now }
    ensures { finding_of result ≡ fault_of network.now.form network.now.bytes.now row held due }
{
    if !same(held, due) {
        return Some(Fault::Due(due));
    }
    let at = network.node_offset(row);
    let width = network.form.route;
    let bytes = network.bytes;
    if !promising_at(width, bytes, at) {
        return unmet(width, bytes, at, held);
    }
    let promise = route_at(width, bytes, at + 4 + width);
    if !same(held, promise) {
        return Some(Fault::Promise(promise));
    }
    unmet(width, bytes, at, held)
}

// The first fault of the own box in a row, which is due a route: it holds the one that the list has for it.
pub fn fault_at(proposal: &Proposal<'_, '_>, row: usize, due: Route) -> Option<Fault>
    requires { (row < node_count proposal.now.network.bytes.now) × (is_own proposal.now.network.form proposal.now.network.bytes.now row ≡ true) }
    ensures { finding_of result ≡ fault_at proposal.now.network.form proposal.now.network.bytes.now proposal.now.list.now row due }
{
    let network = &proposal.network;
    let held = route_at(network.form.route, proposal.row_part(row), 0);
    fault_of(network, row, held, due)
}
