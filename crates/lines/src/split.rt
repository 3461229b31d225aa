// How a program's input is split.
ghost use Rattle.std.specs.Prelude.{◌≡◌, ◌≤◌, min, length};
ghost use Rattle.lines.specs.Split.{first_length, named_of};

use numbers::u16_at;

// How many bytes of a program's input are its first record: length + 4, or all where there are fewer than that or than four.
pub fn first_length(input: &[u8]) -> usize
    ensures { (result ≡ first_length input.now) × (result ≤ length input.now) }
{
    let all = input.len();
    if all < 4 {
        return all;
    }
    let length = numbers::u32_at(input, 0) as usize;
    if all - 4 < length {
        return all;
    }
    length + 4
}

// The id that stands at the start of the bytes behind a first record. Of its two bytes those that are missing are 0, so that one byte
// alone is the high one, with a zero behind it.
pub fn named_id(rest: &[u8]) -> u16
    ensures { result ≡ named_of rest.now }
{
    match rest.len() {
        0 => 0,
        1 => u16_at(&[rest[0], 0], 0),
        _ => u16_at(rest, 0),
    }
}

// How many of these bytes are the id's: two, or all where there are fewer.
pub fn named_length(rest: &[u8]) -> usize
    ensures { result ≡ min 2 (length rest.now) }
{
    rest.len().min(2)
}
