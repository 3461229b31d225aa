// Number 23: the policies of two networks.
ghost use Rattle.std.specs.Prelude.{◌≡◌};
ghost use Rattle.lists.specs.All.{all_alike};
ghost use Rattle.lists.specs.First.{first_bad};
ghost use Rattle.layout.specs.Layout.{policy_count};
ghost use Rattle.routes.specs.Alike.{same_policy};
ghost use Rattle.reading.specs.Whole.{read_network};
ghost use Rattle.matching.specs.Policies.{policy_alike};

use crate::pair::Pair;
use layout::policy_offset;
use routes::{policy_at, same_policy};

// The first of n policies that is not the other network's at its place, or n.
fn first_unlike(pair: Pair, n: usize) -> usize
    requires { (n ≡ policy_count pair.first.bytes.now) × (n ≡ policy_count pair.second.bytes.now) }
    ensures { let p = pair.entry in result ≡ first_bad (policy_alike p.first.bytes.now p.second.bytes.now) n }
{
    for i in 0..n {
        let at = policy_offset(i);
        if !same_policy(
            policy_at(pair.first.bytes, at),
            policy_at(pair.second.bytes, at),
        ) {
            return i;
        }
    }
    n
}

// Whether two networks have the same policies, in the same order.
pub fn alike_policies(pair: Pair) -> bool
    ensures { let a = pair.entry.first in let b = pair.entry.second in
        result ≡ all_alike same_policy (read_network a.form a.bytes.now).policies (read_network a.form b.bytes.now).policies }
{
    let n = pair.first.policy_count();
    if n != pair.second.policy_count() {
        return false;
    }
    first_unlike(pair, n) == n
}
