// The table from ids to rows.
ghost use Rattle.records.specs.Rows.{Tabled};
ghost use Rattle.records.specs.Once.{tabled_once};

use nodes::NetworkRecord;

// A network with the table by which its nodes are found: at an id one more than the row of the node with that id, or 0 where no node
// has it.
#[derive(Clone, Copy)]
pub struct TabledNetwork<'a, 't> {
    pub network: NetworkRecord<'a>,
    pub rows: &'t [u16; 65536],
    pub ghost tabled: { Tabled network.form network.bytes.now rows.now } by { tabled_once _ _ _ },
}

impl<'a, 't> TabledNetwork<'a, 't> {
    ghost use Rattle.std.specs.Prelude.{◌≡◌, true, not, ◌<◌};
    ghost use Rattle.layout.specs.Layout.{node_count};
    ghost use Rattle.nodes.specs.Node.{row_of};
    ghost use Rattle.records.specs.Edge.{boxed, owned};

    // Whether a node has the id.
    pub fn is_boxed(&self, id: u16) -> bool
        ensures { result ≡ boxed self.now.network.form self.now.network.bytes.now id }
    {
        self.rows[usize::from(id)] != 0
    }

    // The row of the node with an id.
    pub fn row_in(&self, id: u16) -> usize
        requires { boxed self.now.network.form self.now.network.bytes.now id ≡ true }
        ensures is { result ≡ row_of self.now.network.form self.now.network.bytes.now id }
        ensures within { (result < node_count self.now.network.bytes.now) × (result < 1024) }
    {
        usize::from(self.rows[usize::from(id)]) - 1
    }

    // Whether an own node has the id.
    pub fn is_owned(&self, id: u16) -> bool
        ensures { result ≡ owned self.now.network.form self.now.network.bytes.now id }
    {
        self.is_boxed(id) && self.network.is_own(self.row_in(id))
    }
}
