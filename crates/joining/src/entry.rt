// The joiner's entry point: the refusals in their order, and then the record.
ghost use Rattle.std.specs.Prelude.{◌≡◌, ◌≤◌, ◌<◌, length, MatchOption};
ghost use Rattle.outcomes.specs.Outcomes.{outcome_of};
ghost use Rattle.outcomes.specs.Room.{record_answer, laid_answer};
ghost use Rattle.joining.specs.Joining.{join_said, join_records, join_buffer};
ghost use Rattle.joining.specs.Stages.{Apart, lowest_unmatched, Matched, OneTable};

use crate::tabled::TabledPair;
use crate::whole::lay_joint;
use layout::{Class, MOST_EDGES, Refusal};
use matching::{Pair, alike_policies, first_twice, first_unmatched, shared_rows};
use merging::front_id;
use nodes::NetworkRecord;
use outcomes::laid_in;
use records::{TabledNetwork, check_network_rows};

// Numbers 24 and 20, or the record.
fn join_alike(pair: TabledPair, out: &mut [u8]) -> Result<usize, Refusal>
    requires apart { Apart pair.first.network.form pair.first.network.bytes.now pair.second.network.bytes.now }
    requires matched { Matched pair.first.network.form pair.first.network.bytes.now pair.second.network.bytes.now }
    requires one_table { OneTable pair.first.network.form pair.first.network.bytes.now pair.second.network.bytes.now }
    ensures answer { let a = pair.entry.first.network in let b = pair.entry.second.network in
        outcome_of result ≡ record_answer a.form (length out.old) (join_said a.form a.bytes.now b.bytes.now) }
    ensures buffer { let a = pair.entry.first.network in let b = pair.entry.second.network in
        out.new ≡ laid_answer a.form (join_said a.form a.bytes.now b.bytes.now) out.old }
{
    let first = pair.first.network;
    let second = pair.second.network;
    let form = first.form;
    let nodes = first.node_count() + second.node_count() - shared_rows(&first, &pair.second);
    if form.most < nodes {
        return Err(Refusal {
            class: Class::TooMany,
            place: nodes,
        });
    }
    let edges = first.edge_count() + second.edge_count();
    let over = MOST_EDGES < edges;
    if over {
        return Err(Refusal {
            class: Class::TooMany,
            place: edges,
        });
    }
    let room = out.len();
    let size = lay_joint(Pair { first, second }, nodes as u16, edges as u16, out);
    laid_in(room, size)
}

// Numbers 23, 24 and 20, or the record.
fn join_matched(pair: TabledPair, out: &mut [u8]) -> Result<usize, Refusal>
    requires apart { Apart pair.first.network.form pair.first.network.bytes.now pair.second.network.bytes.now }
    requires matched { Matched pair.first.network.form pair.first.network.bytes.now pair.second.network.bytes.now }
    ensures answer { let a = pair.entry.first.network in let b = pair.entry.second.network in
        outcome_of result ≡ record_answer a.form (length out.old) (join_said a.form a.bytes.now b.bytes.now) }
    ensures buffer { let a = pair.entry.first.network in let b = pair.entry.second.network in
        out.new ≡ laid_answer a.form (join_said a.form a.bytes.now b.bytes.now) out.old }
{
    let first = pair.first.network;
    let second = pair.second.network;
    if !alike_policies(Pair { first, second }) {
        return Err(Refusal {
            class: Class::PoliciesDiffer,
            place: 0,
        });
    }
    join_alike(pair, out)
}

// The lowest id of which one network assumes what the other does not match.
fn lowest_unmatched(pair: TabledPair) -> Option<usize>
    ensures { let a = pair.entry.first.network in let b = pair.entry.second.network in
        let lowest = lowest_unmatched a.form a.bytes.now b.bytes.now in MatchOption result (65536 ≤ lowest) (λ place. (place ≡ lowest) × (place < 65536)) }
{
    let first = pair.first.network;
    let second = pair.second.network;
    let i = front_id(&first, first_unmatched(&first, &pair.second));
    let j = front_id(&second, first_unmatched(&second, &pair.first));
    let lowest = i.min(j);
    (lowest < 65536).then_some(lowest)
}

// Numbers 22 to 24 and 20, or the record.
fn join_apart(pair: TabledPair, out: &mut [u8]) -> Result<usize, Refusal>
    requires apart { Apart pair.first.network.form pair.first.network.bytes.now pair.second.network.bytes.now }
    ensures answer { let a = pair.entry.first.network in let b = pair.entry.second.network in
        outcome_of result ≡ record_answer a.form (length out.old) (join_said a.form a.bytes.now b.bytes.now) }
    ensures buffer { let a = pair.entry.first.network in let b = pair.entry.second.network in
        out.new ≡ laid_answer a.form (join_said a.form a.bytes.now b.bytes.now) out.old }
{
    if let Some(place) = lowest_unmatched(pair) {
        return Err(Refusal {
            class: Class::Unmatched,
            place,
        });
    }
    join_matched(pair, out)
}

// Numbers 21 to 24 and 20, or the record.
fn join_checked(pair: TabledPair, out: &mut [u8]) -> Result<usize, Refusal>
    ensures answer { let a = pair.entry.first.network in let b = pair.entry.second.network in
        outcome_of result ≡ record_answer a.form (length out.old) (join_said a.form a.bytes.now b.bytes.now) }
    ensures buffer { let a = pair.entry.first.network in let b = pair.entry.second.network in
        out.new ≡ laid_answer a.form (join_said a.form a.bytes.now b.bytes.now) out.old }
{
    let first = pair.first.network;
    let n = first.node_count();
    let twice = first_twice(&first, &pair.second);
    if twice < n {
        return Err(first.refused_at(Class::OwnedByBoth, twice));
    }
    join_apart(pair, out)
}

// Joins two networks: the record is laid over the start of the buffer and its length is the answer; or the call is refused, and the buffer
// is as it was.
pub fn join(first: &[u8], second: &[u8], out: &mut [u8]) -> Result<usize, Refusal>
    ensures answer { outcome_of result ≡ join_records first.now second.now (length out.old) }
    ensures buffer { out.new ≡ join_buffer first.now second.now out.old }
{
    let mut firsts = [0u16; 65536];
    let form = check_network_rows(first, &mut firsts)?;
    let mut seconds = [0u16; 65536];
    check_network_rows(second, &mut seconds)?;
    let pair = TabledPair {
        first: TabledNetwork {
            network: NetworkRecord { form, bytes: first },
            rows: &firsts,
        },
        second: TabledNetwork {
            network: NetworkRecord {
                form,
                bytes: second,
            },
            rows: &seconds,
        },
    };
    join_checked(pair, out)
}
