// Outcomes: what a call that lays a network record over the start of a lent buffer answers, and what a program writes of it. The answer is
// the length of the record that stands at the start of the buffer, or a refusal, with the buffer as it was.
#![tactic(auto)]

mod text;

ghost use Rattle.std.specs.Prelude.{◌≡◌};
ghost use Rattle.outcomes.specs.Outcomes.{outcome_of};
ghost use Rattle.outcomes.specs.Room.{in_room};

use layout::{Class, Refusal};
pub use text::place_outcome;

// The outcome of a record that is laid where there is room for it: number 20 names the length.
pub fn laid_in(room: usize, size: usize) -> Result<usize, Refusal>
    ensures { outcome_of result ≡ in_room room size }
{
    if room < size {
        return Err(Refusal {
            class: Class::NoRoom,
            place: size,
        });
    }
    Ok(size)
}
