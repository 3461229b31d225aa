// The judging program: reads a network record and then a route list record from standard input, and prints the judge's line.
#![tactic(auto)]

ghost use Rattle.judging.specs.Text.{judge_text, judge_bound};
ghost use Rattle.judging.proofs.Starts.{judge_start};
ghost use Rattle.lines.specs.Line.{longest_line};

use judging::{LONGEST, judge_bytes};
use lines::LONGEST_LINE;
use streams::{Program, run};

struct Judge;

impl Program for Judge {
    ghost text = { judge_text };

    ghost bound = { judge_bound };

    ghost longest = { longest_line };

    const UNREAD: &'static [u8] = b"judge: standard input could not be read\n";

    const UNWRITTEN: &'static [u8] = b"judge: the answer could not be written\n";

    fn answer(&self, input: &[u8], out: &mut [u8]) -> usize {
        judge_bytes(input, out)
    }

    ghost bounded = { judge_start };
}

fn main(rt: HostRuntime) {
    let mut room = [0u8; LONGEST + 1];
    let mut line = [0u8; LONGEST_LINE];
    run(&rt, &Judge, &mut room, &mut line);
}
