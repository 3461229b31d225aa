// The library for C: each function of `library` under its own name, by C's calling convention; a slice is handed over as a pointer and a
// length (c/lnianotka.h). Each calls its namesake and promises what that does.
#![tactic(auto)]

ghost use Rattle.std.specs.Prelude.{◌≡◌, length};
ghost use Rattle.lists.specs.Laid.{placed};
ghost use Rattle.layout.specs.Form.{widest};
ghost use Rattle.layout.specs.Refusals.{number_in};
ghost use Rattle.records.specs.Network.{network_refusal};
ghost use Rattle.library.specs.Place.{place_in};
ghost use Rattle.judging.specs.Text.{judge_text, judge_bound, naming_bound};
ghost use Rattle.counting.specs.Text.{census_text, longest_census};
ghost use Rattle.tracing.specs.Text.{trail_text, longest_trail};
ghost use Rattle.cutting.specs.Text.{cut_text, cut_bound};
ghost use Rattle.joining.specs.Text.{join_text, join_bound};
ghost use Rattle.reading.specs.Largest.{largest_network};
ghost use Rattle.lines.specs.Line.{longest_line};

// The number of the first refusal that applies to a network record, with its place through a reference; both are 0 where the network is
// sound.
#[unsafe(no_mangle)]
pub extern "C" fn lnianotka_check(network: &[u8], place: &mut usize) -> u8
    ensures number { result ≡ number_in (network_refusal network.now) }
    ensures offset { place.new ≡ place_in (network_refusal network.now) }
{
    library::lnianotka_check(network, place)
}

// The longest input that is judged; a longer one is refused.
#[unsafe(no_mangle)]
pub extern "C" fn lnianotka_judge_input() -> usize
    ensures { result ≡ judge_bound }
{
    library::lnianotka_judge_input()
}

// Room enough for every line of the judge.
#[unsafe(no_mangle)]
pub extern "C" fn lnianotka_judge_answer() -> usize
    ensures { result ≡ longest_line }
{
    library::lnianotka_judge_answer()
}

// Room enough for every census.
#[unsafe(no_mangle)]
pub extern "C" fn lnianotka_census_answer() -> usize
    ensures { result ≡ longest_census }
{
    library::lnianotka_census_answer()
}

// The longest input that is traced; a longer one is refused.
#[unsafe(no_mangle)]
pub extern "C" fn lnianotka_trail_input() -> usize
    ensures { result ≡ naming_bound }
{
    library::lnianotka_trail_input()
}

// Room enough for every trail.
#[unsafe(no_mangle)]
pub extern "C" fn lnianotka_trail_answer() -> usize
    ensures { result ≡ longest_trail }
{
    library::lnianotka_trail_answer()
}

// The longest input that is cut; a longer one is refused.
#[unsafe(no_mangle)]
pub extern "C" fn lnianotka_cut_input() -> usize
    ensures { result ≡ cut_bound }
{
    library::lnianotka_cut_input()
}

// Room enough for every output of the cutter.
#[unsafe(no_mangle)]
pub extern "C" fn lnianotka_cut_answer() -> usize
    ensures { result ≡ largest_network widest }
{
    library::lnianotka_cut_answer()
}

// The longest input that is joined; a longer one is refused.
#[unsafe(no_mangle)]
pub extern "C" fn lnianotka_join_input() -> usize
    ensures { result ≡ join_bound }
{
    library::lnianotka_join_input()
}

// Room enough for every output of the joiner.
#[unsafe(no_mangle)]
pub extern "C" fn lnianotka_join_answer() -> usize
    ensures { result ≡ largest_network widest }
{
    library::lnianotka_join_answer()
}

// The line that the judging program prints when it reads these bytes: its length, and the line itself at the start of out
// where it fits.
#[unsafe(no_mangle)]
pub extern "C" fn lnianotka_judge(input: &[u8], out: &mut [u8]) -> usize
    ensures count { result ≡ length (judge_text input.now) }
    ensures text { out.new ≡ placed (judge_text input.now) out.old }
{
    library::lnianotka_judge(input, out)
}

// What the counting program prints when it reads these bytes: its length, and the text itself at the start of out where it fits.
#[unsafe(no_mangle)]
pub extern "C" fn lnianotka_census(input: &[u8], out: &mut [u8]) -> usize
    ensures count { result ≡ length (census_text input.now) }
    ensures text { out.new ≡ placed (census_text input.now) out.old }
{
    library::lnianotka_census(input, out)
}

// What the tracing program prints when it reads these bytes: its length, and the text itself at the start of out where it fits.
#[unsafe(no_mangle)]
pub extern "C" fn lnianotka_trail(input: &[u8], out: &mut [u8]) -> usize
    ensures count { result ≡ length (trail_text input.now) }
    ensures text { out.new ≡ placed (trail_text input.now) out.old }
{
    library::lnianotka_trail(input, out)
}

// What the cutting program writes when it reads these bytes: its length, and the bytes themselves at the start of out where
// they fit.
#[unsafe(no_mangle)]
pub extern "C" fn lnianotka_cut(input: &[u8], out: &mut [u8]) -> usize
    ensures count { result ≡ length (cut_text input.now) }
    ensures text { out.new ≡ placed (cut_text input.now) out.old }
{
    library::lnianotka_cut(input, out)
}

// What the joining program writes when it reads these bytes: its length, and the bytes themselves at the start of out where
// they fit.
#[unsafe(no_mangle)]
pub extern "C" fn lnianotka_join(input: &[u8], out: &mut [u8]) -> usize
    ensures count { result ≡ length (join_text input.now) }
    ensures text { out.new ≡ placed (join_text input.now) out.old }
{
    library::lnianotka_join(input, out)
}
