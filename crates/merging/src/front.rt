// What stands at the front of the rows that are left of a record: behind the last one is a number above all.
ghost use Rattle.std.specs.Prelude.{◌≡◌, ◌≤◌};
ghost use Rattle.merging.specs.Front.{front_id, front_key};

use nodes::NetworkRecord;
use numbers::u32_at;

// The id of the node in row p.
pub fn front_id(network: &NetworkRecord, p: usize) -> usize
    ensures { (result ≡ front_id network.now.form network.now.bytes.now p) × (result ≤ 65536) }
{
    if p < network.node_count() {
        return usize::from(network.node_id(p));
    }
    65536
}

// The key of the edge in row p: its two ends as one number.
pub fn front_key(network: &NetworkRecord, p: usize) -> usize
    ensures { (result ≡ front_key network.now.form network.now.bytes.now p) × (result ≤ 4294967296) }
{
    if p < network.edge_count() {
        return u32_at(network.bytes, network.edge_offset(p)) as usize;
    }
    4294967296
}
