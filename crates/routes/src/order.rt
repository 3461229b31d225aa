// The order of routes, as a page to hold beside docs/RULES.md, 'Better'.
ghost use Rattle.std.specs.Prelude.{◌≡◌};
ghost use Rattle.lists.specs.Best.{best};
ghost use Rattle.routes.specs.Order.{beats as order_beats};
ghost use Rattle.routes.specs.declared.Route.TheVariants.{Held};

use crate::{Fields, Route};

// Whether a route that is there beats another: five decisions, and the first that tells the two apart decides.
fn beats(x: Fields, other: Route) -> bool
    ensures { result ≡ order_beats (Held x) other }
{
    // 1 present: a route beats no route
    let Route::Held(y) = other else {
        return true;
    };
    // 2 preference: the higher
    if x.preference != y.preference {
        return x.preference > y.preference;
    }
    // 3 cost: the lower
    if x.cost != y.cost {
        return x.cost < y.cost;
    }
    // 4 origin: the lower
    if x.origin != y.origin {
        return x.origin < y.origin;
    }
    // 5 tags: the lower as a number
    x.tags < y.tags
}

// The best of two routes: the second where it is there and beats the first.
pub fn better(a: Route, b: Route) -> Route
    ensures { result ≡ best order_beats a b }
{
    let Route::Held(y) = b else {
        return a;
    };
    if beats(y, a) { b } else { a }
}
