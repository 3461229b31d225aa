// The search for the first fault.
ghost use Rattle.std.specs.Prelude.{◌≡◌};
ghost use Rattle.judging.specs.Answers.{answer_of};
ghost use Rattle.judging.specs.Judging.{verdict_at};

use crate::{Finding, Verdict};
use boxes::{Fault, fault_at, first_wire, over_wire, own_box, wire_behind};
use preparing::Lookup;

// The first fault by rising id, or a pass. Wires stand by their to end, which is an own box, so that those into a box are the
// next ones: where the next wire leads elsewhere the box is due what it has, and is judged.
pub fn search(lookup: &Lookup<'_, '_>) -> Verdict
    ensures { answer_of result ≡ verdict_at lookup.now.proposal.network.form lookup.now.proposal.network.bytes.now lookup.now.proposal.list.now }
{
    let proposal = &lookup.proposal;
    let network = &proposal.network;
    let mut count: usize = 0;
    let mut wire = first_wire(network);
    'nodes: for row in 0..network.node_count() {
        if !network.is_own(row) {
            continue 'nodes;
        }
        count += 1;
        let own = own_box(network, row);
        let node = own.node;
        let mut due = own.initial;
        loop {
            if wire.to != Some(node) {
                let Some(fault) = fault_at(proposal, row, due) else {
                    continue 'nodes;
                };
                match fault {
                    Fault::Due(route) => {
                        return Verdict::NotDue(Finding { node, count, route });
                    }
                    Fault::Promise(route) => {
                        return Verdict::PromiseBroken(Finding { node, count, route });
                    }
                    Fault::Demand(route) => {
                        return Verdict::DemandUnmet(Finding { node, count, route });
                    }
                }
            }
            due = over_wire(lookup, wire.at, due);
            wire = wire_behind(network, wire.at);
        }
    }
    Verdict::Pass(count)
}
