// One node and one edge. Each writer answers how many bytes it laid.
ghost use Rattle.std.specs.Prelude.{◌≡◌, ◌≤◌, length};
ghost use Rattle.lists.specs.Laid.{over};
ghost use Rattle.routes.specs.Form.{route_at};
ghost use Rattle.networks.specs.Network.{input};
ghost use Rattle.layout.specs.Form.{node_width};
ghost use Rattle.reading.specs.Parts.{box_at, box_bytes, wire_at, wire_bytes};
ghost use Rattle.writing.specs.Rows.{promised_at, NodeAt, OwnAt, RouteAt, EdgeAt};

use layout::{EDGE_WIDTH, Form, KIND_FIELD, ROUTE_FIELD, node_width};
use numbers::{put_part, put_u8, put_u16, put_zeros};

// The node at an offset of a record, as it stands.
pub fn put_node(form: Form, network: &[u8], at: usize, out: &mut [u8]) -> usize
    requires { NodeAt form network.now at × (node_width form ≤ length out.old) }
    ensures size { result ≡ length (box_bytes form.route (box_at form.route network.now at)) }
    ensures laid { out.new ≡ over (box_bytes form.route (box_at form.route network.now at)) out.old }
{
    let size = node_width(form);
    put_part(out, 0, network, at, size);
    size
}

// The own node at an offset of a record, with another promise: the route at an offset of a sheet.
pub fn put_promised(
    form: Form,
    network: &[u8],
    at: usize,
    sheet: &[u8],
    note: usize,
    out: &mut [u8],
) -> usize
    requires { OwnAt form network.now at × RouteAt form sheet.now note × (node_width form ≤ length out.old) }
    ensures size { result ≡ length (box_bytes form.route (promised_at form.route network.now at (route_at form.route sheet.now note))) }
    ensures laid { out.new ≡ over (box_bytes form.route (promised_at form.route network.now at (route_at form.route sheet.now note))) out.old }
{
    let size = node_width(form);
    let flag = ROUTE_FIELD + form.route;
    let demand = flag + 1 + form.route;
    put_part(out, 0, network, at, flag);
    put_u8(out, flag, 1);
    put_part(out, flag + 1, sheet, note, form.route);
    put_part(out, demand, network, at + demand, size - demand);
    size
}

// An input that is assumed to hold the route at an offset of a sheet.
pub fn put_input(form: Form, id: u16, sheet: &[u8], note: usize, out: &mut [u8]) -> usize
    requires { RouteAt form sheet.now note × (node_width form ≤ length out.old) }
    ensures size { result ≡ length (box_bytes form.route (input (record { id = id; assumed = route_at form.route sheet.now note }))) }
    ensures laid { out.new ≡ over (box_bytes form.route (input (record { id = id; assumed = route_at form.route sheet.now note }))) out.old }
{
    let size = node_width(form);
    let behind = ROUTE_FIELD + form.route;
    put_u16(out, 0, id);
    put_u8(out, KIND_FIELD, 1);
    put_part(out, ROUTE_FIELD, sheet, note, form.route);
    put_zeros(out, behind, size - behind);
    size
}

// The edge at an offset of a record, as it stands.
pub fn put_edge(network: &[u8], at: usize, out: &mut [u8]) -> usize
    requires { EdgeAt network.now at × (5 ≤ length out.old) }
    ensures size { result ≡ length (wire_bytes (wire_at network.now at)) }
    ensures laid { out.new ≡ over (wire_bytes (wire_at network.now at)) out.old }
{
    put_part(out, 0, network, at, EDGE_WIDTH);
    EDGE_WIDTH
}
