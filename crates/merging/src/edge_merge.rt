// The edges of two networks by rising key. The edges of one box are all in one network, so that they are looked through and copied run by run.
ghost use Rattle.std.specs.Prelude.{◌≡◌, ◌+◌, ◌≤◌, length};
ghost use Rattle.lists.specs.Laid.{over};
ghost use Rattle.layout.specs.Layout.{edge_count};
ghost use Rattle.records.specs.Checked.{CheckedNetwork};
ghost use Rattle.merging.specs.Merged.{edges_merged};
ghost use Rattle.merging.specs.Runs.{run_below, run_bytes, gone_first, gone_second, turn_bytes, KeysApart};

use crate::front::front_key;
use layout::EDGE_WIDTH;
use matching::Pair;
use nodes::NetworkRecord;
use numbers::{put_part, stride, u32_at};

// How many edges from row p on have a key below a limit.
fn run_below(network: &NetworkRecord, p: usize, limit: usize) -> usize
    requires { p ≤ edge_count network.now.bytes.now }
    ensures { result ≡ run_below network.now.form network.now.bytes.now p limit }
{
    let b = network.bytes;
    let n = network.edge_count() - p;
    let mut at = network.edge_offset(p);
    for k in 0..n {
        if limit <= u32_at(b, at) as usize {
            return k;
        }
        at += EDGE_WIDTH;
    }
    n
}

// The k edges from row p on, as they stand. Answers how many bytes they are.
fn put_run(network: &NetworkRecord, p: usize, k: usize, out: &mut [u8]) -> usize
    requires checked { CheckedNetwork network.now.form network.now.bytes.now }
    requires within { p + k ≤ edge_count network.now.bytes.now }
    requires room { length (run_bytes network.now.form network.now.bytes.now p k) ≤ length out.old }
    ensures size { result ≡ length (run_bytes network.now.form network.now.bytes.now p k) }
    ensures laid { out.new ≡ over (run_bytes network.now.form network.now.bytes.now p k) out.old }
{
    let size = stride(0, EDGE_WIDTH, k);
    put_part(out, 0, network.bytes, network.edge_offset(p), size);
    size
}

// How many edges of each network went by in a turn of the merge.
#[derive(Clone, Copy)]
struct Gone {
    first: usize,
    second: usize,
}

// One turn, from rows p and q on: the edges of the first network below the second's front, and then the other way round.
fn lay_turn(pair: Pair, p: usize, q: usize, out: &mut [u8]) -> Gone
    requires within { (p ≤ edge_count pair.first.bytes.now) × (q ≤ edge_count pair.second.bytes.now) }
    requires room { length (turn_bytes pair.first.form pair.first.bytes.now pair.second.bytes.now p q) ≤ length out.old }
    ensures first { let t = pair.entry in result.first ≡ gone_first t.first.form t.first.bytes.now t.second.bytes.now p q }
    ensures second { let t = pair.entry in result.second ≡ gone_second t.first.form t.first.bytes.now t.second.bytes.now p q }
    ensures laid { let t = pair.entry in out.new ≡ over (turn_bytes t.first.form t.first.bytes.now t.second.bytes.now p q) out.old }
{
    let Pair { first, second } = pair;
    let a = run_below(&first, p, front_key(&second, q));
    let size = put_run(&first, p, a, out);
    let b = run_below(&second, q, front_key(&first, p + a));
    put_run(&second, q, b, &mut out[size..]);
    Gone {
        first: a,
        second: b,
    }
}

// The edges of both, of which there are so many and no two have one key.
pub fn merge_edges(pair: Pair, edges: usize, out: &mut [u8])
    requires apart { KeysApart pair.first.form pair.first.bytes.now pair.second.bytes.now }
    requires counted { edges ≡ edge_count pair.first.bytes.now + edge_count pair.second.bytes.now }
    requires room { length (edges_merged pair.first.form pair.first.bytes.now pair.second.bytes.now) ≤ length out.old }
    ensures { let t = pair.entry in out.new ≡ over (edges_merged t.first.form t.first.bytes.now t.second.bytes.now) out.old }
{
    let mut p = 0;
    let mut q = 0;
    let mut o = 0;
    while p + q < edges {
        let gone = lay_turn(pair, p, q, &mut out[o..]);
        p += gone.first;
        q += gone.second;
        o += stride(0, EDGE_WIDTH, gone.first + gone.second);
    }
}
