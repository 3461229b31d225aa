// The lines of the programs.
ghost use Rattle.std.specs.Prelude.{◌≡◌, ◌+◌, ◌^◌, ◌≤◌, ◌<◌, length};
ghost use Rattle.lists.specs.Laid.{placed};
ghost use Rattle.lines.specs.Line.{line_bytes, box_line, longest_box_line};
ghost use Rattle.lines.specs.Written.{Written};

use crate::Line;
use crate::words::{add_numbers, add_route, put_number, put_word};
use routes::Route;

// The bytes of a number behind its space.
const NUMBER: usize = 1 + 20;

// The longest line: `found`, seven numbers and a line feed.
pub const LONGEST_LINE: usize = 5 + 7 * NUMBER + 1;

// The longest line of a box: an id, four numbers and a line feed.
pub const LONGEST_BOX_LINE: usize = 20 + 4 * NUMBER + 1;

// Puts a line at an offset of a lent room, as far as the room goes, and answers the offset behind it.
pub fn put_line(line: Line, room: &mut [u8], at: usize) -> usize
    requires { at < 2 ^ 63 }
    ensures { Written (line_bytes line) room.old at room.new result }
{
    match line {
        Line::Pass(judged) => {
            let next = put_word(b"pass", room, at);
            let next = add_numbers(&[judged], room, next);
            put_word(b"\n", room, next)
        }
        Line::Refused(number, place) => {
            let next = put_word(b"refused", room, at);
            let next = add_numbers(&[number, place], room, next);
            put_word(b"\n", room, next)
        }
        Line::Found(number, node, judged, route) => {
            let next = put_word(b"found", room, at);
            let next = add_numbers(&[number, node, judged], room, next);
            let end = add_route(route, room, next);
            put_word(b"\n", room, end)
        }
    }
}

// Puts the line of a box: its id and its route.
pub fn put_box(id: u16, route: Route, room: &mut [u8], at: usize) -> usize
    requires { at + longest_box_line < 2 ^ 64 }
    ensures { Written (box_line id route) room.old at room.new result × (result ≤ at + longest_box_line) }
{
    let next = put_number(usize::from(id), room, at);
    let next = add_route(route, room, next);
    put_word(b"\n", room, next)
}

// Places a line at the start of out where it fits, and answers its length.
pub fn place_line(line: Line, out: &mut [u8]) -> usize
    ensures count { result ≡ length (line_bytes line) }
    ensures text { out.new ≡ placed (line_bytes line) out.old }
{
    let mut none = [0u8; 0];
    let length = put_line(line, &mut none, 0);
    if out.len() < length {
        return length;
    }
    put_line(line, out, 0)
}
