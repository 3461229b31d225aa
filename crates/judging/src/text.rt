// What the judging program prints, as a function of what it reads.
ghost use Rattle.std.specs.Prelude.{◌≡◌, length};
ghost use Rattle.lists.specs.Laid.{placed};
ghost use Rattle.lines.specs.Line.{found_line, line_bytes};
ghost use Rattle.judging.specs.Answers.{answer_of};
ghost use Rattle.judging.specs.Text.{verdict_line, judge_bound, naming_bound, judge_text};

use crate::entry::judge;
use crate::{Finding, Verdict};
use layout::{LARGEST_LIST, LARGEST_NETWORK};
use lines::{Line, first_length, place_line};

// The longest input: the largest network and the largest route list.
pub const LONGEST: usize = LARGEST_NETWORK + LARGEST_LIST;

// The longest input of a program that names a box, by two bytes behind the network.
pub const LONGEST_NAMING: usize = LONGEST + 2;

// The same two, held to their definitions.
pub fn longest_input() -> usize
    ensures { result ≡ judge_bound }
{
    LONGEST
}

pub fn longest_naming() -> usize
    ensures { result ≡ naming_bound }
{
    LONGEST_NAMING
}

// The line of a finding with this number.
fn finding_line(number: usize, finding: Finding) -> Line
    ensures { line_bytes result ≡ found_line number finding.node finding.count finding.route }
{
    let route = finding.route;
    Line::Found(number, usize::from(finding.node), finding.count, route)
}

// The line of a verdict.
pub fn verdict_line(verdict: Verdict) -> Line
    ensures { line_bytes result ≡ verdict_line (answer_of verdict) }
{
    match verdict {
        Verdict::Pass(count) => Line::Pass(count),
        Verdict::NotDue(finding) => finding_line(31, finding),
        Verdict::PromiseBroken(finding) => finding_line(32, finding),
        Verdict::DemandUnmet(finding) => finding_line(33, finding),
        Verdict::Refused(refusal) => Line::from(refusal),
    }
}

// The line of an input.
fn input_line(input: &[u8]) -> Line
    ensures { line_bytes result ≡ judge_text input.now }
{
    let longest = longest_input();
    if longest < input.len() {
        return Line::Refused(5, longest);
    }
    let first = first_length(input);
    verdict_line(judge(&input[0..first], &input[first..]))
}

// The line that the judging program prints when it reads these bytes: its length, and the line itself at the start of out
// where it fits.
pub fn judge_bytes(input: &[u8], out: &mut [u8]) -> usize
    ensures count { result ≡ length (judge_text input.now) }
    ensures text { out.new ≡ placed (judge_text input.now) out.old }
{
    place_line(input_line(input), out)
}
