// The census of two records, and of a program's input.
ghost use Rattle.std.specs.Prelude.{◌≡◌, length};
ghost use Rattle.lists.specs.Laid.{placed};
ghost use Rattle.judging.specs.Answers.{answer_of};
ghost use Rattle.judging.specs.Text.{verdict_line};
ghost use Rattle.judging.specs.Judging.{verdict_at};
ghost use Rattle.counting.specs.Rows.{pass_rows};
ghost use Rattle.counting.specs.Text.{census_from, census_records, longest_census, census_text};

use crate::Tally;
use crate::text::{put_census, tally};
use judging::{Verdict, longest_input, search, verdict_line};
use layout::ROWS;
use lines::{LONGEST_LINE, Line, first_length, place_line};
use preparing::{Lookup, Proposal, prepare};

// Room enough for every census: the judge's line, four lines of counts, and the line of every box.
pub const LONGEST_CENSUS: usize = LONGEST_LINE + 400 + 28 * ROWS;

// The same, held to its definition.
pub fn longest_census() -> usize
    ensures { result ≡ longest_census }
{
    LONGEST_CENSUS
}

// Places the census of a pass at the start of out where it fits, and answers its length.
fn place_pass(proposal: &Proposal<'_, '_>, tally: Tally, out: &mut [u8]) -> usize
    ensures count { result ≡ length (pass_rows proposal.now.network.form proposal.now.network.bytes.now proposal.now.list.now tally) }
    ensures text { out.new ≡ placed (pass_rows proposal.now.network.form proposal.now.network.bytes.now proposal.now.list.now tally) out.old }
{
    let length = put_census(proposal, tally, &mut []);
    if out.len() < length {
        return length;
    }
    put_census(proposal, tally, out)
}

// Judges a list that judging does not refuse, and places its census.
fn place_judged(lookup: &Lookup<'_, '_>, out: &mut [u8]) -> usize
    ensures count { let p = lookup.now.proposal in let n = p.network in result ≡ length (census_from n.form n.bytes.now p.list.now (verdict_at n.form n.bytes.now p.list.now)) }
    ensures text { let p = lookup.now.proposal in let n = p.network in out.new ≡ placed (census_from n.form n.bytes.now p.list.now (verdict_at n.form n.bytes.now p.list.now)) out.old }
{
    let verdict = search(lookup);
    let Verdict::Pass(boxes) = verdict else {
        return place_line(verdict_line(verdict), out);
    };
    let proposal = &lookup.proposal;
    place_pass(proposal, tally(proposal, boxes), out)
}

// Judges a list record against a network record, and places the judge's line and behind a pass the census at the start of out,
// where they fit. Answers their length.
pub fn census<'a>(network: &'a [u8], list: &'a [u8], out: &mut [u8]) -> usize
    ensures count { result ≡ length (census_records network.now list.now) }
    ensures text { out.new ≡ placed (census_records network.now list.now) out.old }
{
    let mut rows = [0u16; 65536];
    let mut stands = [0usize; ROWS];
    match prepare(network, list, &mut rows, &mut stands) {
        Err(r) => place_line(verdict_line(Verdict::Refused(r)), out),
        Ok(form) => place_judged(&Lookup::new(form, network, list, &rows, &stands), out),
    }
}

// What the counting program prints when it reads these bytes: its length, and the text itself at the start of out where it fits.
pub fn census_bytes(input: &[u8], out: &mut [u8]) -> usize
    ensures count { result ≡ length (census_text input.now) }
    ensures text { out.new ≡ placed (census_text input.now) out.old }
{
    let longest = longest_input();
    if longest < input.len() {
        return place_line(Line::Refused(5, longest), out);
    }
    let first = first_length(input);
    census(&input[0..first], &input[first..], out)
}
