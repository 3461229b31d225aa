// The counting program: reads a network record and then a route list record from standard input, and prints the judge's line and, behind
// a pass, the census.
#![tactic(auto)]

ghost use Rattle.judging.specs.Text.{judge_bound};
ghost use Rattle.counting.specs.Text.{census_text, longest_census};
ghost use Rattle.counting.proofs.Lengths.{census_start};

use counting::{LONGEST_CENSUS, census_bytes};
use judging::LONGEST;
use streams::{Program, run};

struct Census;

impl Program for Census {
    ghost text = { census_text };

    ghost bound = { judge_bound };

    ghost longest = { longest_census };

    const UNREAD: &'static [u8] = b"census: standard input could not be read\n";

    const UNWRITTEN: &'static [u8] = b"census: the answer could not be written\n";

    fn answer(&self, input: &[u8], out: &mut [u8]) -> usize {
        census_bytes(input, out)
    }

    ghost bounded = { census_start };
}

fn main(rt: HostRuntime) {
    let mut room = [0u8; LONGEST + 1];
    let mut text = [0u8; LONGEST_CENSUS];
    run(&rt, &Census, &mut room, &mut text);
}
