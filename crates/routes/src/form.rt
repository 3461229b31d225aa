// A route and a policy as a record's bytes, over the width of a route.
ghost use Rattle.std.specs.Prelude.{◌≡◌, ◌+◌, ◌≤◌, length};
ghost use Rattle.routes.specs.Form.{fields_at, route_at, route_formed, policy_at, preference_formed, policy_formed};

use crate::{Fields, Policy, Route};
use numbers::{all_zero, u16_at};

// Whether the width bytes of b at an offset are a route: a zero present byte has only zeros behind it.
pub fn route_formed(width: usize, b: &[u8], at: usize) -> bool
    requires { (9 ≤ width) × (at + width ≤ length b.now) }
    ensures { result ≡ route_formed width b.now at }
{
    match b[at] {
        0 => all_zero(b, at + 1, width - 1),
        1 => all_zero(b, at + 1, width - 9),
        _ => false,
    }
}

fn fields_at(b: &[u8], at: usize) -> Fields
    requires { at + 8 ≤ length b.now }
    ensures { result ≡ fields_at b.now at }
{
    Fields {
        preference: u16_at(b, at),
        cost: u16_at(b, at + 2),
        origin: u16_at(b, at + 4),
        tags: u16_at(b, at + 6),
    }
}

// The route of the width bytes of b at an offset.
pub fn route_at(width: usize, b: &[u8], at: usize) -> Route
    requires { (9 ≤ width) × (at + width ≤ length b.now) }
    ensures { result ≡ route_at width b.now at }
{
    match b[at] {
        0 => Route::None,
        _ => Route::Held(fields_at(b, at + 1 + (width - 9))),
    }
}

// Whether the 3 bytes of b at an offset are a preference flag with its preference: a flag of 0 has preference 0.
fn preference_formed(b: &[u8], at: usize) -> bool
    requires { at + 3 ≤ length b.now }
    ensures { result ≡ preference_formed b.now at }
{
    match b[at] {
        0 => u16_at(b, at + 1) == 0,
        1 => true,
        _ => false,
    }
}

// Whether the 13 bytes of b at an offset are a policy: its preference is well formed, and it adds at least 1.
pub fn policy_formed(b: &[u8], at: usize) -> bool
    requires { at + 13 ≤ length b.now }
    ensures { result ≡ policy_formed b.now at }
{
    preference_formed(b, at + 8) && 1 <= u16_at(b, at + 11)
}

// The policy of the 13 bytes of b at an offset.
pub fn policy_at(b: &[u8], at: usize) -> Policy
    requires { at + 13 ≤ length b.now }
    ensures { result ≡ policy_at b.now at }
{
    Policy {
        need: u16_at(b, at),
        bar: u16_at(b, at + 2),
        clear: u16_at(b, at + 4),
        set: u16_at(b, at + 6),
        flag: b[at + 8] == 1,
        preference: u16_at(b, at + 9),
        added: u16_at(b, at + 11),
    }
}
