// What programs in other languages call: the check, the judge, the census, the trail, the cutter and the joiner, from bytes to bytes, and the
// rooms that these take.
//
// The crate `library_c` hands them to C under their own names (c/lnianotka.h). No function has a `requires`: a caller in
// another language owes no more than what the types say.
#![tactic(auto)]

ghost use Rattle.std.specs.Prelude.{◌≡◌, length};
ghost use Rattle.lists.specs.Laid.{placed};
ghost use Rattle.layout.specs.Form.{widest};
ghost use Rattle.layout.specs.Refusals.{number_in};
ghost use Rattle.records.specs.Network.{network_refusal};
ghost use Rattle.library.specs.Place.{place_in};
ghost use Rattle.judging.specs.Text.{judge_text, judge_bound, naming_bound};
ghost use Rattle.counting.specs.Text.{census_text, longest_census};
ghost use Rattle.tracing.specs.Text.{trail_text, longest_trail};
ghost use Rattle.cutting.specs.Text.{cut_text, cut_bound};
ghost use Rattle.joining.specs.Text.{join_text, join_bound};
ghost use Rattle.reading.specs.Largest.{largest_network};
ghost use Rattle.lines.specs.Line.{longest_line};

use lines::LONGEST_LINE;
use records::check_network;

// The number of the first refusal that applies to a network record, with its place through a reference; both are 0 where the network is
// sound.
pub fn lnianotka_check(network: &[u8], place: &mut usize) -> u8
    ensures number { result ≡ number_in (network_refusal network.now) }
    ensures offset { place.new ≡ place_in (network_refusal network.now) }
{
    match check_network(network) {
        Ok(_) => {
            *place = 0;
            0
        }
        Err(refusal) => {
            *place = refusal.place;
            u8::from(refusal.class)
        }
    }
}

// The longest input that is judged; a longer one is refused.
pub fn lnianotka_judge_input() -> usize
    ensures { result ≡ judge_bound }
{
    judging::longest_input()
}

// Room enough for every line of the judge.
pub fn lnianotka_judge_answer() -> usize
    ensures { result ≡ longest_line }
{
    LONGEST_LINE
}

// Room enough for every census.
pub fn lnianotka_census_answer() -> usize
    ensures { result ≡ longest_census }
{
    counting::longest_census()
}

// The longest input that is traced; a longer one is refused.
pub fn lnianotka_trail_input() -> usize
    ensures { result ≡ naming_bound }
{
    judging::longest_naming()
}

// Room enough for every trail.
pub fn lnianotka_trail_answer() -> usize
    ensures { result ≡ longest_trail }
{
    tracing::longest_trail()
}

// The longest input that is cut; a longer one is refused.
pub fn lnianotka_cut_input() -> usize
    ensures { result ≡ cut_bound }
{
    cutting::longest_input()
}

// Room enough for every output of the cutter.
pub fn lnianotka_cut_answer() -> usize
    ensures { result ≡ largest_network widest }
{
    cutting::largest_output()
}

// The longest input that is joined; a longer one is refused.
pub fn lnianotka_join_input() -> usize
    ensures { result ≡ join_bound }
{
    joining::longest_input()
}

// Room enough for every output of the joiner.
pub fn lnianotka_join_answer() -> usize
    ensures { result ≡ largest_network widest }
{
    joining::largest_output()
}

// The line that the judging program prints when it reads these bytes: its length, and the line itself at the start of out
// where it fits.
pub fn lnianotka_judge(input: &[u8], out: &mut [u8]) -> usize
    ensures count { result ≡ length (judge_text input.now) }
    ensures text { out.new ≡ placed (judge_text input.now) out.old }
{
    judging::judge_bytes(input, out)
}

// What the counting program prints when it reads these bytes: its length, and the text itself at the start of out where it fits.
pub fn lnianotka_census(input: &[u8], out: &mut [u8]) -> usize
    ensures count { result ≡ length (census_text input.now) }
    ensures text { out.new ≡ placed (census_text input.now) out.old }
{
    counting::census_bytes(input, out)
}

// What the tracing program prints when it reads these bytes: its length, and the text itself at the start of out where it fits.
pub fn lnianotka_trail(input: &[u8], out: &mut [u8]) -> usize
    ensures count { result ≡ length (trail_text input.now) }
    ensures text { out.new ≡ placed (trail_text input.now) out.old }
{
    tracing::trail_bytes(input, out)
}

// What the cutting program writes when it reads these bytes: its length, and the bytes themselves at the start of out where
// they fit.
pub fn lnianotka_cut(input: &[u8], out: &mut [u8]) -> usize
    ensures count { result ≡ length (cut_text input.now) }
    ensures text { out.new ≡ placed (cut_text input.now) out.old }
{
    cutting::cut_bytes(input, out)
}

// What the joining program writes when it reads these bytes: its length, and the bytes themselves at the start of out where
// they fit.
pub fn lnianotka_join(input: &[u8], out: &mut [u8]) -> usize
    ensures count { result ≡ length (join_text input.now) }
    ensures text { out.new ≡ placed (join_text input.now) out.old }
{
    joining::join_bytes(input, out)
}
