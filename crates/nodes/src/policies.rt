// Policies as bytes.
ghost use Rattle.std.specs.Prelude.{◌≡◌, ◌≤◌, length};
ghost use Rattle.lists.specs.First.{first_bad};
ghost use Rattle.layout.specs.Layout.{policy_offset};
ghost use Rattle.nodes.specs.Policy.{policy_ok};

use routes::policy_formed;

// The first of n policies that is ill formed, or n.
pub fn bad_policy(b: &[u8], n: usize) -> usize
    requires { policy_offset n ≤ length b.now }
    ensures { result ≡ first_bad (policy_ok b.now) n }
{
    let mut o = 10;
    for i in 0..n {
        if !policy_formed(b, o) {
            return i;
        }
        o += 13;
    }
    n
}
