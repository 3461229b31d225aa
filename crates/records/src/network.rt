// Networks: numbers 1 to 10.
//
// The version byte decides the form once; from there on every function takes the form. Each end of an edge is found by the
// table from ids to rows.
ghost use Rattle.std.specs.Prelude.{◌≡◌, ◌≤◌, length, replicate};
ghost use Rattle.lists.specs.Rising.{Rising};
ghost use Rattle.layout.specs.Form.{Usable, form_of};
ghost use Rattle.layout.specs.Layout.{node_count, edge_count};
ghost use Rattle.records.specs.Network.{many_parts, network_from, network_refusal};
ghost use Rattle.nodes.specs.Node.{node_id};
ghost use Rattle.layout.specs.Refusals.{check_answer};
ghost use Rattle.records.specs.Rows.{Marked, any_edge, RowsAfter};

use crate::TabledNetwork;
use crate::edges::bad_input;
use crate::filling::fill_rows;
use layout::{
    Class, EDGES_FIELD, Form, MOST_EDGES, MOST_POLICIES, NODES_FIELD, POLICIES_FIELD, ROWS,
    Refusal, edge_offset, form_of, node_offset, node_part, policy_offset, total_of,
};
use nodes::{NetworkRecord, bad_node, bad_policy};
use numbers::{u16_at, u32_at};

// Number 10, by the marks of the rows that the edges leave.
fn check_inputs(network: &NetworkRecord, left: &[u8; ROWS]) -> Result<Form, Refusal>
    requires { Marked network.now.form network.now.bytes.now any_edge (edge_count network.now.bytes.now) left.now }
    ensures { check_answer result ≡ network_from network.now.form network.now.bytes.now 10 }
{
    let input = bad_input(network, left);
    if input < network.node_count() {
        return Err(Refusal {
            class: Class::NoEdgeOut,
            place: network.node_offset(input),
        });
    }
    Ok(network.form)
}

// Numbers 9 and 10.
fn check_wires(table: &TabledNetwork) -> Result<Form, Refusal>
    requires { Rising (node_id table.now.network.form table.now.network.bytes.now) (node_count table.now.network.bytes.now) }
    ensures { check_answer result ≡ network_from table.now.network.form table.now.network.bytes.now 9 }
{
    let mut left = [0u8; ROWS];
    let network = table.network;
    let bad = table.bad_edge(&mut left);
    if bad < network.edge_count() {
        return Err(Refusal {
            class: Class::IllEdge,
            place: network.edge_offset(bad),
        });
    }
    check_inputs(&network, &left)
}

// Numbers 7 to 10.
fn check_nodes(network: &NetworkRecord, rows: &mut [u16; 65536]) -> Result<Form, Refusal>
    requires { rows.old ≡ replicate 65536 0 }
    ensures numbers { check_answer result ≡ network_from network.now.form network.now.bytes.now 7 }
    ensures table { RowsAfter network.now.form network.now.bytes.now result rows.old rows.new }
{
    let nodes = network.node_count();
    let node = bad_node(network.form, network.bytes, nodes);
    if node < nodes {
        return Err(Refusal {
            class: Class::IllNode,
            place: network.node_offset(node),
        });
    }
    if network.no_own() {
        return Err(Refusal {
            class: Class::NoOwn,
            place: node_part(network.bytes),
        });
    }
    fill_rows(network, rows);
    check_wires(&TabledNetwork {
        network: *network,
        rows,
    })
}

// Numbers 6 to 10.
fn check_parts(network: &NetworkRecord, rows: &mut [u16; 65536]) -> Result<Form, Refusal>
    requires { rows.old ≡ replicate 65536 0 }
    ensures numbers { check_answer result ≡ network_from network.now.form network.now.bytes.now 6 }
    ensures table { RowsAfter network.now.form network.now.bytes.now result rows.old rows.new }
{
    let policies = network.policy_count();
    let policy = bad_policy(network.bytes, policies);
    if policy < policies {
        return Err(Refusal {
            class: Class::IllPolicy,
            place: policy_offset(policy),
        });
    }
    check_nodes(network, rows)
}

// Whether a count is over its bound.
fn counts_over(form: Form, b: &[u8]) -> bool
    requires { 10 ≤ length b.now }
    ensures { result ≡ many_parts form b.now }
{
    if form.most < u16_at(b, NODES_FIELD) as usize {
        return true;
    }
    if MOST_EDGES < u16_at(b, EDGES_FIELD) as usize {
        return true;
    }
    MOST_POLICIES < usize::from(b[POLICIES_FIELD])
}

// Numbers 3 to 10, and 1 where the record is cut short.
fn check_counts(form: Form, b: &[u8], rows: &mut [u16; 65536]) -> Result<Form, Refusal>
    requires { Usable form × (10 ≤ length b.now) × (rows.old ≡ replicate 65536 0) }
    ensures numbers { check_answer result ≡ network_from form b.now 2 }
    ensures table { RowsAfter form b.now result rows.old rows.new }
{
    if counts_over(form, b) {
        return Err(Refusal {
            class: Class::Counts,
            place: 5,
        });
    }
    let total = total_of(form, b);
    if u32_at(b, 0) as usize + 4 != total {
        return Err(Refusal {
            class: Class::Length,
            place: 0,
        });
    }
    let n = b.len();
    if n < total {
        return Err(Refusal {
            class: Class::Short,
            place: n,
        });
    }
    if total < n {
        return Err(Refusal {
            class: Class::Behind,
            place: total,
        });
    }
    check_parts(&NetworkRecord { form, bytes: b }, rows)
}

// The same form. That a route has at least nine bytes is written out for a compiler that keeps a form and its absence in one place: it knows the
// width by it, so that the loops over a route's bytes are a few wide loads.
fn of_width(form: Form) -> Form
    requires { Usable form }
    ensures { result ≡ form }
{
    Form {
        version: form.version,
        route: form.route.max(9),
        most: form.most,
    }
}

// Checks a network, and fills the table from ids to rows, which is lent with zeros, where none of 1 to 8 applies; else the
// table is as it was.
pub fn check_network_rows(b: &[u8], rows: &mut [u16; 65536]) -> Result<Form, Refusal>
    requires { rows.old ≡ replicate 65536 0 }
    ensures numbers { check_answer result ≡ network_refusal b.now }
    ensures table { RowsAfter (form_of b.now) b.now result rows.old rows.new }
{
    let n = b.len();
    if n < 10 {
        return Err(Refusal {
            class: Class::Short,
            place: n,
        });
    }
    let Some(form) = form_of(b) else {
        return Err(Refusal {
            class: Class::Version,
            place: 4,
        });
    };
    check_counts(of_width(form), b, rows)
}

// Checks a network.
pub fn check_network(b: &[u8]) -> Result<Form, Refusal>
    ensures { check_answer result ≡ network_refusal b.now }
{
    let mut rows = [0u16; 65536];
    check_network_rows(b, &mut rows)
}
