// What a wire makes of a route.
ghost use Rattle.std.specs.Prelude.{◌≡◌, cond};
ghost use Rattle.routes.specs.Carry.{carried};

use crate::{Fields, Policy, Route};

// The preference that a policy leaves.
fn chosen(flag: bool, replaced: u16, kept: u16) -> u16
    ensures { result ≡ cond flag replaced kept }
{
    if flag { replaced } else { kept }
}

// The highest cost that a wire may give.
pub const HIGHEST: u16 = 65535;

// The route behind a wire with this policy, where top is the highest cost that the wire may give.
pub fn carry(top: u16, policy: Policy, route: Route) -> Route
    ensures { result ≡ carried top policy route }
{
    let Route::Held(f) = route else {
        return Route::None;
    };
    let tags = f.tags;
    let need = policy.need;
    if tags & need != need {
        return Route::None;
    }
    if tags & policy.bar != 0 {
        return Route::None;
    }
    let cost = f.cost;
    let added = policy.added;
    if top < cost {
        return Route::None;
    }
    if top - cost < added {
        return Route::None;
    }
    Route::Held(Fields {
        preference: chosen(policy.flag, policy.preference, f.preference),
        cost: cost + added,
        origin: f.origin,
        tags: (tags & !policy.clear) | policy.set,
    })
}
