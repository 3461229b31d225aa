// The walk back along a trail.
ghost use Rattle.std.specs.Prelude.{◌≡◌, true, ◌+◌, ◌^◌, ◌<◌, length};
ghost use Rattle.records.specs.Edge.{boxed};
ghost use Rattle.lines.specs.Line.{longest_box_line};
ghost use Rattle.lines.specs.Written.{Written};
ghost use Rattle.tracing.specs.Tracing.{Passing};
ghost use Rattle.tracing.specs.Text.{trail_from};

use crate::senders::sender;
use lines::put_box;
use preparing::Lookup;

// Puts the lines of the trail back from a box into a lent room. Every wire adds to a route's cost, so that the sender holds a cheaper one: the
// cost falls at each call, and the walk ends.
pub fn put_trail(lookup: &Lookup<'_, '_>, id: u16, room: &mut [u8], at: usize) -> usize
    requires passing { Passing lookup.now.proposal.network.form lookup.now.proposal.network.bytes.now lookup.now.proposal.list.now }
    requires id_value { boxed lookup.now.proposal.network.form lookup.now.proposal.network.bytes.now id ≡ true }
    requires offset_fits { at + (length (trail_from lookup.now.proposal.network.form lookup.now.proposal.network.bytes.now lookup.now.proposal.list.now id) + longest_box_line) < 2 ^ 64 }
    ensures { Written (trail_from lookup.now.proposal.network.form lookup.now.proposal.network.bytes.now lookup.now.proposal.list.now id) room.old at room.new result }
{
    let route = lookup.box_route(id);
    let next = put_box(id, route, room, at);
    match sender(lookup, id, route) {
        None => next,
        Some(from) => put_trail(lookup, from, room, next),
    }
}
