// The box that a box has its route from.
ghost use Rattle.std.specs.Prelude.{◌≡◌, true};
ghost use Rattle.records.specs.Edge.{boxed};
ghost use Rattle.tracing.specs.Tracing.{mapping_in, supplier_in, sender_in, sender_of};

use boxes::{offer, own_box, wire_behind, wire_into};
use numbers::u16_at;
use preparing::Lookup;
use routes::{Route, same};

// The sender with the lowest id that supplies the route that a box holds, if one does. The wires into a box stand by rising sender.
fn supplier(lookup: &Lookup<'_, '_>, id: u16, route: Route) -> Option<u16>
    requires route_value { route ≡ mapping_in lookup.now.proposal.network.form lookup.now.proposal.network.bytes.now lookup.now.proposal.list.now id }
    ensures { sender_of result ≡ supplier_in lookup.now.proposal.network.form lookup.now.proposal.network.bytes.now lookup.now.proposal.list.now id }
{
    let network = &lookup.proposal.network;
    let mut wire = wire_into(network, id);
    while wire.to == Some(id) {
        if same(route, offer(lookup, wire.at)) {
            return Some(u16_at(network.bytes, wire.at + 2));
        }
        wire = wire_behind(network, wire.at);
    }
    None
}

// The box that the trail goes back to from a box that holds this route: none from an input, and none where the box's own initial route is
// the one that it holds.
pub fn sender(lookup: &Lookup<'_, '_>, id: u16, route: Route) -> Option<u16>
    requires id_value { boxed lookup.now.proposal.network.form lookup.now.proposal.network.bytes.now id ≡ true }
    requires route_value { route ≡ mapping_in lookup.now.proposal.network.form lookup.now.proposal.network.bytes.now lookup.now.proposal.list.now id }
    ensures { sender_of result ≡ sender_in lookup.now.proposal.network.form lookup.now.proposal.network.bytes.now lookup.now.proposal.list.now id }
{
    let network = &lookup.proposal.network;
    let row = lookup.table().row_in(id);
    if !network.is_own(row) {
        return None;
    }
    if same(route, own_box(network, row).initial) {
        return None;
    }
    supplier(lookup, id, route)
}
