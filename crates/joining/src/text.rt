// What the joining program writes, as a function of what it reads.
ghost use Rattle.std.specs.Prelude.{◌≡◌, length};
ghost use Rattle.lists.specs.Laid.{placed};
ghost use Rattle.layout.specs.Form.{widest, form_of};
ghost use Rattle.outcomes.specs.Text.{record_output};
ghost use Rattle.reading.specs.Largest.{largest_network};
ghost use Rattle.joining.specs.Joining.{join_networks};
ghost use Rattle.joining.specs.Text.{join_bound, join_text};

use crate::entry::join;
use layout::LARGEST_NETWORK;
use lines::{Line, first_length, place_line};
use outcomes::place_outcome;

// No output is longer than the largest network.
pub const LARGEST: usize = LARGEST_NETWORK;

// The longest input: two of the largest networks.
pub const LONGEST: usize = LARGEST_NETWORK + LARGEST_NETWORK;

// The same two, held to their definitions.
pub fn largest_output() -> usize
    ensures { result ≡ largest_network widest }
{
    LARGEST
}

pub fn longest_input() -> usize
    ensures { result ≡ join_bound }
{
    LONGEST
}

// Places the joint network, or the line of a refusal, at the start of out where it fits, and answers its length.
fn put_joint(first: &[u8], second: &[u8], out: &mut [u8]) -> usize
    ensures count { result ≡ length (record_output (form_of first.now) (join_networks first.now second.now)) }
    ensures text { out.new ≡ placed (record_output (form_of first.now) (join_networks first.now second.now)) out.old }
{
    let outcome = join(first, second, out);
    place_outcome(outcome, out)
}

// What the joining program writes when it reads these bytes: its length, and the bytes themselves at the start of out where they fit.
pub fn join_bytes(input: &[u8], out: &mut [u8]) -> usize
    ensures count { result ≡ length (join_text input.now) }
    ensures text { out.new ≡ placed (join_text input.now) out.old }
{
    let longest = longest_input();
    if longest < input.len() {
        return place_line(Line::Refused(5, longest), out);
    }
    let first = first_length(input);
    put_joint(&input[..first], &input[first..], out)
}
