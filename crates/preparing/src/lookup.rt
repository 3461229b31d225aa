// A neighbour's route: its bytes are a part of whichever record holds them.
ghost use Rattle.preparing.specs.Prepared.{Standing, Prepared};
ghost use Rattle.preparing.specs.Once.{standing_once, prepared_once};

use layout::{Form, ROWS};
use nodes::NetworkRecord;
use records::TabledNetwork;
use routes::{Route, route_at};

// A proposal with the network that it is for, and where the route of each row stands: what `prepare` leaves.
#[derive(Clone, Copy)]
pub struct Proposal<'a, 't> {
    pub network: NetworkRecord<'a>,
    pub list: &'a [u8],
    pub stands: &'t [usize; ROWS],
    pub ghost standing: { Standing network.form network.bytes.now list.now stands.now } by { standing_once _ _ _ _ },
}

// The same with the row of each id, by which a neighbour's route is looked up.
#[derive(Clone, Copy)]
pub struct Lookup<'a, 't> {
    pub proposal: Proposal<'a, 't>,
    pub rows: &'t [u16; 65536],
    pub ghost prepared: { Prepared proposal.network.form proposal.network.bytes.now proposal.list.now rows.now proposal.stands.now } by { prepared_once _ _ _ _ _ },
}

impl<'a, 't> Proposal<'a, 't> {
    ghost use Rattle.std.specs.Prelude.{◌≡◌, ◌<◌};
    ghost use Rattle.layout.specs.Layout.{node_count};
    ghost use Rattle.preparing.specs.Parts.{row_part};

    // The route bytes of the node in a row: in the list for an own box, in the network for an input.
    pub fn row_part(&self, row: usize) -> &'a [u8]
        requires { row < node_count self.now.network.bytes.now }
        ensures { result.now ≡ row_part self.now.network.form self.now.network.bytes.now self.now.list.now row }
    {
        let width = self.network.form.route;
        let at = self.stands[row];
        let bytes = self.network.bytes;
        let n = bytes.len();
        if at < n {
            return &bytes[at..at + width];
        }
        let from = at - n;
        &self.list[from..from + width]
    }
}

impl<'a, 't> Lookup<'a, 't> {
    ghost use Rattle.std.specs.Prelude.{◌≡◌, true};
    ghost use Rattle.records.specs.Edge.{boxed};
    ghost use Rattle.routes.specs.Carry.{highest};
    ghost use Rattle.networks.specs.Solution.{mapping};
    ghost use Rattle.reading.specs.House.{house};
    ghost use Rattle.reading.specs.Whole.{read_network, read_list};
    ghost use Rattle.nodes.specs.Node.{row_of};
    ghost use Rattle.preparing.specs.Parts.{row_part, named_part};

    // The lookup in two records that are not refused, by the tables that `prepare` fills.
    pub fn new(
        form: Form,
        network: &'a [u8],
        list: &'a [u8],
        rows: &'t [u16; 65536],
        stands: &'t [usize; ROWS],
    ) -> Self
        requires { Prepared form network.now list.now rows.now stands.now }
        ensures form { result.proposal.network.form ≡ form }
        ensures network { result.proposal.network.bytes.now ≡ network.now }
        ensures list { result.proposal.list.now ≡ list.now }
        ensures rows { result.rows.now ≡ rows.now }
        ensures stands { result.proposal.stands.now ≡ stands.now }
    {
        let network = NetworkRecord {
            form,
            bytes: network,
        };
        let proposal = Proposal {
            network,
            list,
            stands,
        };
        Lookup { proposal, rows }
    }

    // The network with its table from ids to rows.
    pub fn table(&self) -> TabledNetwork<'a, 't>
        ensures form { result.network.form ≡ self.now.proposal.network.form }
        ensures network { result.network.bytes.now ≡ self.now.proposal.network.bytes.now }
        ensures rows { result.rows.now ≡ self.now.rows.now }
    {
        TabledNetwork {
            network: self.proposal.network,
            rows: self.rows,
        }
    }

    // The route bytes of the box with an id.
    pub fn box_part(&self, id: u16) -> &'a [u8]
        requires { boxed self.now.proposal.network.form self.now.proposal.network.bytes.now id ≡ true }
        ensures { let p = self.now.proposal in let n = p.network in
            result.now ≡ row_part n.form n.bytes.now p.list.now (row_of n.form n.bytes.now id) }
    {
        self.proposal.row_part(self.table().row_in(id))
    }

    // The route that the box with an id holds: an own box by the list, an input by assumption.
    pub fn box_route(&self, id: u16) -> Route
        requires { boxed self.now.proposal.network.form self.now.proposal.network.bytes.now id ≡ true }
        ensures { let p = self.now.proposal in let n = p.network in
            result ≡ mapping (house highest) (read_network n.form n.bytes.now) (read_list n.form p.list.now) id }
    {
        route_at(self.proposal.network.form.route, self.box_part(id), 0)
    }

    // The route bytes of the box with an id, or an empty part where no node has it.
    pub fn named_part(&self, id: u16) -> &'a [u8]
        ensures { result.now ≡ named_part self.now.proposal.network.form self.now.proposal.network.bytes.now self.now.proposal.list.now id }
    {
        if !self.table().is_boxed(id) {
            return &self.proposal.network.bytes[0..0];
        }
        self.box_part(id)
    }
}
