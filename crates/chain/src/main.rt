// Runs the bench examples of document 01 that are not proved, on its chain of three boxes: what a record or a fragment comes to.
// Those about the greatest counts are run by `boundaries`.
//
// Standard input has the chain's network and the sheet that cuts it 1, 2 | 3. Each piece of a line (a text, a space, a number, a line feed) is
// written by itself: what cannot be written of one is left out alone, and the pieces behind it are still tried.
#![tactic(auto)]

ghost use Rattle.std.specs.Prelude.{◌≤◌};

use cutting::cut;
use numbers::{u16_at, u32_at};
use streams::read_input;

// Prints a line: a text, a space and a number.
fn say(rt: &HostRuntime, text: &str, n: usize) {
    let _ = print!(rt; "{text}");
    let _ = print!(rt; " ");
    let _ = print!(rt; "{n}");
    let _ = println!(rt);
}

// Cuts a fragment, and prints its length, or the number and the place of the refusal.
fn say_cut(rt: &HostRuntime, text: &str, network: &[u8], sheet: &[u8], k: u8, out: &mut [u8]) {
    let _ = print!(rt; "{text}");
    match cut(network, sheet, k, out) {
        Ok(length) => say(rt, " bytes", length),
        Err(refusal) => {
            let number = u8::from(refusal.class);
            say(rt, " refused", usize::from(number));
            say(rt, "  place", refusal.place);
        }
    }
}

// The same in a buffer of some bytes.
fn say_within(rt: &HostRuntime, text: &str, network: &[u8], sheet: &[u8], k: u8, room: usize)
    requires { room ≤ 124 }
{
    let mut out = [0u8; 124];
    say_cut(rt, text, network, sheet, k, &mut out[0..room]);
}

// The fragment of box 3: its length, its first node and its edge.
fn say_parts(rt: &HostRuntime, network: &[u8], sheet: &[u8]) {
    let mut out = [0u8; 124];
    say_cut(rt, "fragment 1 of 1, 2 | 3:", network, sheet, 1, &mut out);
    say(rt, "  first node", usize::from(u16_at(&out, 23)));
    say(rt, "  its kind, 1 for an input", usize::from(out[25]));
    say(rt, "  edge to", usize::from(u16_at(&out, 77)));
    say(rt, "  edge from", usize::from(u16_at(&out, 79)));
}

// The first byte in which two records differ.
fn first_other(one: &[u8; 124], other: &[u8; 124]) -> Option<usize> {
    one.iter().zip(other.iter()).position(|(a, b)| a != b)
}

// The fragment of all boxes: its length, and how many of its bytes are the network's own.
fn say_whole(rt: &HostRuntime, network: &[u8; 124], sheet: &[u8]) {
    let mut out = [0u8; 124];
    say_cut(rt, "all boxes in fragment 0:", network, sheet, 0, &mut out);
    let own = first_other(network, &out).unwrap_or(124);
    say(rt, "  bytes up to one that is not the network's", own);
}

// The sheet with all boxes but the last in fragment 0.
fn last_in(sheet: [u8; 43], k: u8) -> [u8; 43] {
    let mut other = sheet;
    other[33] = k;
    other
}

fn say_all(rt: &HostRuntime, network: [u8; 124], sheet: [u8; 43]) {
    say_within(rt, "fragment 0 of 1, 2 | 3:", &network, &sheet, 0, 124);
    say_parts(rt, &network, &sheet);
    say_within(rt, "in a buffer of 82:", &network, &sheet, 1, 82);
    say_within(rt, "in a buffer of 81:", &network, &sheet, 1, 81);
    say_within(rt, "fragment 64:", &network, &sheet, 64, 124);
    let far = last_in(sheet, 63);
    say_within(rt, "box 3 in fragment 63:", &network, &far, 63, 124);
    say_whole(rt, &network, &last_in(sheet, 0));
}

// Reads a record of as many bytes as the room has, and answers whether that was done.
fn read_record(rt: &HostRuntime, room: &mut [u8]) -> bool {
    let length = room.len();
    let Ok(got) = read_input(rt, room, b"chain: a record could not be read\n") else {
        return false;
    };
    got == length
}

// The record's length is what its own length field says: a longer one would be cut short here, and refused by every cut.
fn main(rt: HostRuntime) {
    let mut network = [0u8; 124];
    let mut sheet = [0u8; 43];
    if !read_record(&rt, &mut network) || !read_record(&rt, &mut sheet) {
        return;
    }
    say(
        &rt,
        "chain record: bytes",
        4 + (u32_at(&network, 0) as usize),
    );
    say_all(&rt, network, sheet);
}
