// What the cutting program writes, as a function of what it reads.
ghost use Rattle.std.specs.Prelude.{◌≡◌, length};
ghost use Rattle.lists.specs.Laid.{placed};
ghost use Rattle.layout.specs.Form.{widest, form_of};
ghost use Rattle.reading.specs.Largest.{largest_network};
ghost use Rattle.outcomes.specs.Text.{record_output};
ghost use Rattle.cutting.specs.Cutting.{cut_network};
ghost use Rattle.cutting.specs.Text.{cut_bound, cut_text};

use crate::entry::cut;
use layout::{LARGEST_NETWORK, LARGEST_SHEET};
use lines::{Line, first_length, place_line};
use outcomes::place_outcome;

// No output is longer than the largest network.
pub const LARGEST: usize = LARGEST_NETWORK;

// The longest input: the largest network, the byte for the fragment, and the largest sheet.
pub const LONGEST: usize = LARGEST_NETWORK + 1 + LARGEST_SHEET;

// The same two, held to their definitions.
pub fn largest_output() -> usize
    ensures { result ≡ largest_network widest }
{
    LARGEST
}

pub fn longest_input() -> usize
    ensures { result ≡ cut_bound }
{
    LONGEST
}

// Places fragment k, or the line of a refusal, at the start of out where it fits, and answers its length.
fn put_fragment(network: &[u8], sheet: &[u8], k: u8, out: &mut [u8]) -> usize
    ensures count { result ≡ length (record_output (form_of network.now) (cut_network network.now sheet.now k)) }
    ensures text { out.new ≡ placed (record_output (form_of network.now) (cut_network network.now sheet.now k)) out.old }
{
    let outcome = cut(network, sheet, k, out);
    place_outcome(outcome, out)
}

// What the cutting program writes when it reads these bytes: its length, and the bytes themselves at the start of out where
// they fit.
pub fn cut_bytes(input: &[u8], out: &mut [u8]) -> usize
    ensures count { result ≡ length (cut_text input.now) }
    ensures text { out.new ≡ placed (cut_text input.now) out.old }
{
    let longest = longest_input();
    if longest < input.len() {
        return place_line(Line::Refused(5, longest), out);
    }
    let first = first_length(input);
    if first == input.len() {
        return put_fragment(input, &input[first..], 0, out);
    }
    let behind = first + 1;
    put_fragment(&input[..first], &input[behind..], input[first], out)
}
