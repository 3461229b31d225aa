// What the programs read and print: the split of their input, and their lines.
//
// A text of any number of words and lines is put into a lent room word behind word (`words`). Where the room ends first, what
// is behind its end is left out and the text's length is answered all the same: so a text is measured with a room of no bytes,
// and then put where it fits (`place_line`).
#![tactic(auto)]

mod answer;
mod split;
mod words;

ghost use Rattle.std.specs.Prelude.{◌≡◌};
ghost use Rattle.layout.specs.Refusals.{number_of};
ghost use Rattle.lines.specs.declared.Line.TheVariants.{Refused};

pub use answer::{LONGEST_BOX_LINE, LONGEST_LINE, place_line, put_box, put_line};
use layout::Refusal;
use routes::Route;
pub use split::{first_length, named_id, named_length};
pub use words::{add_numbers, add_route, put_number, put_word};

// An answer of one line: `pass JUDGED`, `refused NUMBER PLACE`, `found NUMBER NODE JUDGED` and the route.
#[derive(Clone, Copy)]
pub enum Line {
    Pass(usize),
    Refused(usize, usize),
    Found(usize, usize, usize, Route),
}

// A refusal as its line: the number of its class, and its place.
impl From<Refusal> for Line {
    ghost from_gives = { λ refusal line. line ≡ Refused (number_of refusal.class) refusal.place };

    fn from(refusal: Refusal) -> Line {
        Line::Refused(usize::from(u8::from(refusal.class)), refusal.place)
    }
}
