// The cutting program: reads a network record, the number of a fragment and a sheet record from standard input, and writes the
// fragment's record, or the line of a refusal.
#![tactic(auto)]

ghost use Rattle.layout.specs.Form.{widest};
ghost use Rattle.reading.specs.Largest.{largest_network};
ghost use Rattle.cutting.specs.Text.{cut_text, cut_bound};
ghost use Rattle.cutting.proofs.Starts.{cut_start};

use cutting::{LARGEST, LONGEST, cut_bytes};
use streams::{Program, run};

struct Cut;

impl Program for Cut {
    ghost text = { cut_text };

    ghost bound = { cut_bound };

    ghost longest = { largest_network widest };

    const UNREAD: &'static [u8] = b"cut: standard input could not be read\n";

    const UNWRITTEN: &'static [u8] = b"cut: the answer could not be written\n";

    fn answer(&self, input: &[u8], out: &mut [u8]) -> usize {
        cut_bytes(input, out)
    }

    ghost bounded = { cut_start };
}

// No fragment is longer than the largest network.
fn main(rt: HostRuntime) {
    let mut room = [0u8; LONGEST + 1];
    let mut output = [0u8; LARGEST];
    run(&rt, &Cut, &mut room, &mut output);
}
