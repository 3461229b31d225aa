// Words, put one behind another into a lent room.
//
// Each function stores bytes at an offset of the room, as far as the room goes, and answers the offset behind them. All that
// is asked is that this offset is one that a number can hold: a number takes at most 20 bytes and a space before it.
ghost use Rattle.std.specs.Prelude.{◌≡◌, map, ◌+◌, ◌*◌, ◌^◌, ◌≤◌, ◌<◌, length, set};
ghost use Rattle.numbers.specs.Decimal.{decimal};
ghost use Rattle.lines.specs.Line.{spaced, route_words};
ghost use Rattle.lines.specs.Written.{Written};

use routes::Route;

// Stores a byte at an offset where the room has one.
fn put_byte(byte: u8, room: &mut [u8], at: usize)
    ensures { room.new ≡ set room.old at byte }
{
    if room.len() <= at {
        return;
    }
    room[at] = byte;
}

// Puts a word.
pub fn put_word(word: &[u8], room: &mut [u8], at: usize) -> usize
    requires { at + length word.now < 2 ^ 64 }
    ensures { Written word.now room.old at room.new result × (result ≡ at + length word.now) }
{
    for (i, byte) in word.iter().enumerate() {
        put_byte(*byte, room, at + i);
    }
    at + word.len()
}

// Puts a number's digits.
pub fn put_number(n: usize, room: &mut [u8], at: usize) -> usize
    requires { at + 20 < 2 ^ 64 }
    ensures { Written (decimal n) room.old at room.new result × (result ≤ at + 20) }
{
    let mut digits = [0u8; 20];
    let count = io::decimal(n as u64, &mut digits);
    put_word(&digits[0..count], room, at)
}

// Puts numbers, each behind a space.
pub fn add_numbers(numbers: &[usize], room: &mut [u8], at: usize) -> usize
    requires { at + 21 * length numbers.now < 2 ^ 64 }
    ensures written { Written (spaced (map decimal numbers.now)) room.old at room.new result }
    ensures upper_bound { result ≤ at + 21 * length numbers.now }
{
    let mut next = at;
    for n in numbers {
        next = put_word(b" ", room, next);
        next = put_number(*n, room, next);
    }
    next
}

// Puts a route's words, each behind a space.
pub fn add_route(route: Route, room: &mut [u8], at: usize) -> usize
    requires { at + 84 < 2 ^ 64 }
    ensures { Written (spaced (route_words route)) room.old at room.new result × (result ≤ at + 84) }
{
    let Route::Held(f) = route else {
        return put_word(b" none", room, at);
    };
    let preference = usize::from(f.preference);
    let cost = usize::from(f.cost);
    let origin = usize::from(f.origin);
    let tags = usize::from(f.tags);
    add_numbers(&[preference, cost, origin, tags], room, at)
}
