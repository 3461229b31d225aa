// The joining program: reads two network records from standard input, and writes the record of the joint network, or the line of a
// refusal.
#![tactic(auto)]

ghost use Rattle.layout.specs.Form.{widest};
ghost use Rattle.reading.specs.Largest.{largest_network};
ghost use Rattle.joining.specs.Text.{join_text, join_bound};
ghost use Rattle.joining.proofs.Starts.{join_start};

use joining::{LARGEST, LONGEST, join_bytes};
use streams::{Program, run};

struct Join;

impl Program for Join {
    ghost text = { join_text };

    ghost bound = { join_bound };

    ghost longest = { largest_network widest };

    const UNREAD: &'static [u8] = b"join: standard input could not be read\n";

    const UNWRITTEN: &'static [u8] = b"join: the answer could not be written\n";

    fn answer(&self, input: &[u8], out: &mut [u8]) -> usize {
        join_bytes(input, out)
    }

    ghost bounded = { join_start };
}

// No joint network is longer than the largest one.
fn main(rt: HostRuntime) {
    let mut room = [0u8; LONGEST + 1];
    let mut output = [0u8; LARGEST];
    run(&rt, &Join, &mut room, &mut output);
}
