// The trail of a box by two records, and by a program's input.
ghost use Rattle.std.specs.Prelude.{◌≡◌, true, ◌≤◌, length};
ghost use Rattle.lists.specs.Laid.{placed};
ghost use Rattle.records.specs.Edge.{owned};
ghost use Rattle.tracing.specs.Tracing.{Passing};
ghost use Rattle.tracing.specs.Text.{trail_from, output_at, trail_output, longest_trail, trail_text};

use crate::walk::put_trail;
use judging::{Verdict, longest_naming, search, verdict_line};
use layout::{Class, ROWS, Refusal};
use lines::{LONGEST_BOX_LINE, Line, first_length, named_id, named_length, place_line};
use preparing::{Lookup, prepare};

// Room enough for every trail: the line of each own box, and of an input.
pub const LONGEST_TRAIL: usize = LONGEST_BOX_LINE * (ROWS + 1);

// The same, held to its definition.
pub fn longest_trail() -> usize
    ensures { result ≡ longest_trail }
{
    LONGEST_TRAIL
}

// Places the trail of a box at the start of out where it fits, and answers its length. A room in which every trail fits is not measured
// first, which would walk it twice.
fn place_trail(lookup: &Lookup<'_, '_>, id: u16, out: &mut [u8]) -> usize
    requires passing { Passing lookup.now.proposal.network.form lookup.now.proposal.network.bytes.now lookup.now.proposal.list.now }
    requires id_value { owned lookup.now.proposal.network.form lookup.now.proposal.network.bytes.now id ≡ true }
    ensures count { result ≡ length (trail_from lookup.now.proposal.network.form lookup.now.proposal.network.bytes.now lookup.now.proposal.list.now id) }
    ensures short { result ≤ longest_trail }
    ensures text { out.new ≡ placed (trail_from lookup.now.proposal.network.form lookup.now.proposal.network.bytes.now lookup.now.proposal.list.now id) out.old }
{
    if longest_trail() <= out.len() {
        return put_trail(lookup, id, out, 0);
    }
    let length = put_trail(lookup, id, &mut [], 0);
    if out.len() < length {
        return length;
    }
    put_trail(lookup, id, out, 0)
}

// Places what is shown of a box by a list that judging does not refuse: 18 comes before a finding.
fn place_shown(lookup: &Lookup<'_, '_>, id: u16, out: &mut [u8]) -> usize
    ensures count { result ≡ length (output_at lookup.now.proposal.network.form lookup.now.proposal.network.bytes.now lookup.now.proposal.list.now id) }
    ensures short { result ≤ longest_trail }
    ensures text { out.new ≡ placed (output_at lookup.now.proposal.network.form lookup.now.proposal.network.bytes.now lookup.now.proposal.list.now id) out.old }
{
    if !lookup.table().is_owned(id) {
        let refusal = Refusal {
            class: Class::NoSuchOwn,
            place: usize::from(id),
        };
        return place_line(verdict_line(Verdict::Refused(refusal)), out);
    }
    let verdict = search(lookup);
    let Verdict::Pass(_) = verdict else {
        return place_line(verdict_line(verdict), out);
    };
    place_trail(lookup, id, out)
}

// Places at the start of out, where they fit, the lines of the trail back from the own box with this id, or the judge's line: of a record
// that is refused, of number 18 where no own box has the id, of a list that fails. Answers their length.
pub fn trail<'a>(network: &'a [u8], list: &'a [u8], id: u16, out: &mut [u8]) -> usize
    ensures count { result ≡ length (trail_output network.now list.now id) }
    ensures short { result ≤ longest_trail }
    ensures text { out.new ≡ placed (trail_output network.now list.now id) out.old }
{
    let mut rows = [0u16; 65536];
    let mut stands = [0usize; ROWS];
    match prepare(network, list, &mut rows, &mut stands) {
        Err(r) => place_line(verdict_line(Verdict::Refused(r)), out),
        Ok(form) => place_shown(&Lookup::new(form, network, list, &rows, &stands), id, out),
    }
}

// What the tracing program prints when it reads these bytes: its length, and the text itself at the start of out where it fits.
pub fn trail_bytes(input: &[u8], out: &mut [u8]) -> usize
    ensures count { result ≡ length (trail_text input.now) }
    ensures short { result ≤ longest_trail }
    ensures text { out.new ≡ placed (trail_text input.now) out.old }
{
    let longest = longest_naming();
    if longest < input.len() {
        return place_line(Line::Refused(5, longest), out);
    }
    let first = first_length(input);
    let id = named_id(&input[first..]);
    let behind = first + named_length(&input[first..]);
    trail(&input[0..first], &input[behind..], id, out)
}
