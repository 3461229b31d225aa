// Whether a demand is met.
ghost use Rattle.std.specs.Prelude.{◌≡◌};
ghost use Rattle.routes.specs.Demand.{meets};

use crate::{Demand, Route};

// Whether the route that a box holds meets the demand set there.
pub fn is_met(demand: Demand, route: Route) -> bool
    ensures { result ≡ meets demand route }
{
    match demand {
        Demand::Nothing => true,
        Demand::Hold { ceiling, tags } => match route {
            Route::None => false,
            Route::Held(f) => f.cost <= ceiling && f.tags & tags == tags,
        },
        Demand::HoldNone => matches!(route, Route::None),
    }
}
