// What a program writes of an outcome.
ghost use Rattle.std.specs.Prelude.{◌≡◌};
ghost use Rattle.outcomes.specs.Outcomes.{outcome_of};
ghost use Rattle.outcomes.specs.Text.{outcome_length, outcome_placed};

use layout::Refusal;
use lines::{Line, place_line};

// Places the line of a refusal at the start of out where it fits, and answers its length. A record that is there, and one that had no
// room, is answered by its length.
pub fn place_outcome(outcome: Result<usize, Refusal>, out: &mut [u8]) -> usize
    ensures count { result ≡ outcome_length (outcome_of outcome) }
    ensures text { out.new ≡ outcome_placed (outcome_of outcome) out.old }
{
    match outcome {
        Ok(length) => length,
        Err(refusal) => match u8::from(refusal.class) {
            20 => refusal.place,
            _ => place_line(Line::from(refusal), out),
        },
    }
}
