// The form of a record.
ghost use Rattle.std.specs.Prelude.{◌≡◌, ◌≤◌, length};
ghost use Rattle.layout.specs.Form.{formed};

use crate::Form;

// Version 1: the bytes of a route, and the greatest number of nodes and of entries.
pub const ROUTE: usize = 9;

pub const MOST: usize = 512;

// The form that the version byte names: the one place where a version is told from another.
pub fn form_of(b: &[u8]) -> Option<Form>
    requires { 5 ≤ length b.now }
    ensures { result ≡ formed b.now }
{
    match b[4] {
        1 => Some(Form {
            version: 1,
            route: ROUTE,
            most: MOST,
        }),
        _ => None,
    }
}
