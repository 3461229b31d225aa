// A network record whose parts are all there, and its nodes by their row.
ghost use Rattle.layout.specs.Layout.{Room};
ghost use Rattle.nodes.specs.Once.{room_once};

use crate::nodes::own_at;
use layout::{
    Class, EDGES_FIELD, Form, NODES_FIELD, POLICIES_FIELD, Refusal, edge_offset, node_offset,
};
use numbers::u16_at;

// The bytes of a network, which has room for what its counts say, and its form.
#[derive(Clone, Copy)]
pub struct NetworkRecord<'a> {
    pub form: Form,
    pub bytes: &'a [u8],
    pub ghost room: { Room form bytes.now } by { room_once _ _ },
}

impl<'a> NetworkRecord<'a> {
    ghost use Rattle.std.specs.Prelude.{◌≡◌, ◌+◌, ◌≤◌, ◌<◌};
    ghost use Rattle.layout.specs.Layout.{node_count, edge_count, policy_count, node_offset, edge_offset};
    ghost use Rattle.nodes.specs.Node.{node_id, is_own, ownless};

    // How many nodes, edges and policies the record has.
    pub fn node_count(&self) -> usize
        ensures { (result ≡ node_count self.now.bytes.now) × (result ≤ 65535) }
    {
        usize::from(u16_at(self.bytes, NODES_FIELD))
    }

    pub fn edge_count(&self) -> usize
        ensures { (result ≡ edge_count self.now.bytes.now) × (result ≤ 65535) }
    {
        usize::from(u16_at(self.bytes, EDGES_FIELD))
    }

    pub fn policy_count(&self) -> usize
        ensures { (result ≡ policy_count self.now.bytes.now) × (result ≤ 255) }
    {
        usize::from(self.bytes[POLICIES_FIELD])
    }

    // The offset of the node in a row; behind the last one the edges begin.
    pub fn node_offset(&self, row: usize) -> usize
        requires { row ≤ 65535 }
        ensures { (result ≡ node_offset self.now.form self.now.bytes.now row) × (result ≤ 4197629) }
    {
        node_offset(self.form, self.bytes, row)
    }

    // The offset of the j-th edge; behind the last one the record ends.
    pub fn edge_offset(&self, j: usize) -> usize
        requires { j ≤ 65535 }
        ensures { (result ≡ edge_offset self.now.form self.now.bytes.now j) × (result ≤ 8391933) }
    {
        edge_offset(self.form, self.bytes, j)
    }

    // The id of the node in a row.
    pub fn node_id(&self, row: usize) -> u16
        requires { row < node_count self.now.bytes.now }
        ensures { result ≡ node_id self.now.form self.now.bytes.now row }
    {
        u16_at(self.bytes, self.node_offset(row))
    }

    // Whether the node in a row is an own one.
    pub fn is_own(&self, row: usize) -> bool
        requires { row < node_count self.now.bytes.now }
        ensures { result ≡ is_own self.now.form self.now.bytes.now row }
    {
        own_at(self.bytes, self.node_offset(row))
    }

    // The refusal of a class that names the node in a row: its place is the node's id.
    pub fn refused_at(&self, class: Class, row: usize) -> Refusal
        requires { row < node_count self.now.bytes.now }
        ensures { result ≡ record { class = class; place = node_id self.now.form self.now.bytes.now row } }
    {
        Refusal {
            class,
            place: usize::from(self.node_id(row)),
        }
    }

    // Whether no node is an own one.
    pub fn no_own(&self) -> bool
        ensures { result ≡ ownless self.now.form self.now.bytes.now }
    {
        for row in 0..self.node_count() {
            if self.is_own(row) {
                return false;
            }
        }
        true
    }
}
