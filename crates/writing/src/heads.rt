// What stands before the nodes: the head, the policies, and the length by the counts, which the head says.
ghost use Rattle.std.specs.Prelude.{◌≡◌, ◌≤◌, ◌<◌, length};
ghost use Rattle.std.proofs.lemmas.List.Edits.{sets};
ghost use Rattle.lists.specs.Laid.{over};
ghost use Rattle.layout.specs.Form.{Usable};
ghost use Rattle.layout.specs.Layout.{head_width, nodes_field, node_part};
ghost use Rattle.writing.specs.Heads.{count_bytes, head_bytes, policies_in, size_of};

use layout::{
    EDGE_WIDTH, EDGES_FIELD, Form, HEAD_WIDTH, NODES_FIELD, POLICIES_FIELD, VERSION_FIELD,
    node_part, node_width, policy_offset,
};
use numbers::{put_part, put_u8, put_u16, put_u32, stride};

// The length of a record by its counts.
pub fn size_of(form: Form, policies: u8, nodes: u16, edges: u16) -> usize
    requires { Usable form }
    ensures { (result ≡ size_of form policies nodes edges) × (result < 16777216) }
{
    let first = policy_offset(usize::from(policies));
    let behind = stride(first, node_width(form), usize::from(nodes));
    stride(behind, EDGE_WIDTH, usize::from(edges))
}

// The three counts, as five bytes of out behind the length and the version.
fn put_counts(nodes: u16, edges: u16, policies: u8, out: &mut [u8])
    requires { head_width ≤ length out.old }
    ensures { out.new ≡ sets out.old nodes_field (count_bytes nodes edges policies) }
{
    put_u16(out, NODES_FIELD, nodes);
    put_u16(out, EDGES_FIELD, edges);
    put_u8(out, POLICIES_FIELD, policies);
}

// The head of a record with a version, a length and counts.
pub fn put_head(version: u8, size: u32, nodes: u16, edges: u16, policies: u8, out: &mut [u8])
    requires { (4 ≤ size) × (head_width ≤ length out.old) }
    ensures { out.new ≡ over (head_bytes version size nodes edges policies) out.old }
{
    put_u32(out, 0, size - 4);
    put_u8(out, VERSION_FIELD, version);
    put_counts(nodes, edges, policies, out);
}

// The policies of a record, as they stand. Answers how many bytes that is.
pub fn put_policies(network: &[u8], out: &mut [u8]) -> usize
    requires head { (head_width ≤ length network.now) × (node_part network.now ≤ length network.now) }
    requires room { length (policies_in network.now) ≤ length out.old }
    ensures size { result ≡ length (policies_in network.now) }
    ensures laid { out.new ≡ over (policies_in network.now) out.old }
{
    let size = node_part(network) - HEAD_WIDTH;
    put_part(out, 0, network, HEAD_WIDTH, size);
    size
}
