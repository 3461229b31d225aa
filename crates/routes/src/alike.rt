// Whether two routes are the same, and whether two policies are.
ghost use Rattle.std.specs.Prelude.{◌≡◌};
ghost use Rattle.routes.specs.Alike.{same_policy};
ghost use Rattle.routes.specs.Order.{same as order_same};

use crate::{Policy, Route};

// Whether two routes are the same.
pub fn same(a: Route, b: Route) -> bool
    ensures { result ≡ order_same a b }
{
    a == b
}

// Whether two policies are equal, field by field.
pub fn same_policy(p: Policy, q: Policy) -> bool
    ensures { result ≡ same_policy p q }
{
    p == q
}
