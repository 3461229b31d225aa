// The tracing program: reads a network record, a box's id of two bytes and then a route list record from standard input, and prints the
// trail back from that box, or the judge's line: of a record or an id that is refused, or of a list that fails.
#![tactic(auto)]

ghost use Rattle.judging.specs.Text.{naming_bound};
ghost use Rattle.tracing.specs.Text.{trail_text, longest_trail};
ghost use Rattle.tracing.proofs.Lengths.{trail_start};

use judging::LONGEST_NAMING;
use streams::{Program, run};
use tracing::{LONGEST_TRAIL, trail_bytes};

struct Trail;

impl Program for Trail {
    ghost text = { trail_text };

    ghost bound = { naming_bound };

    ghost longest = { longest_trail };

    const UNREAD: &'static [u8] = b"trail: standard input could not be read\n";

    const UNWRITTEN: &'static [u8] = b"trail: the answer could not be written\n";

    fn answer(&self, input: &[u8], out: &mut [u8]) -> usize {
        trail_bytes(input, out)
    }

    ghost bounded = { trail_start };
}

fn main(rt: HostRuntime) {
    let mut room = [0u8; LONGEST_NAMING + 1];
    let mut text = [0u8; LONGEST_TRAIL];
    run(&rt, &Trail, &mut room, &mut text);
}
