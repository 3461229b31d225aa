// Answers a stream of stored cases through the functions that the programs call: what it writes is held to answers that the
// reference made.
//
// A case is one byte, the number of a call, the input's length as four bytes, and the input. Its answer is the output's length as
// four bytes, and the output. What each number calls is said in 'answer' and nowhere else. Where a read or a write fails, that is said and the
// run ends.
#![tactic(auto)]

ghost use Rattle.std.specs.Prelude.{◌≤◌, length};

use counting::census_bytes;
use cutting::{cut, cut_bytes};
use joining::{LONGEST, join, join_bytes};
use judging::judge_bytes;
use layout::Refusal;
use lines::{Line, place_line};
use numbers::{u16_at, u32_at};
use streams::{read_input, write_output};
use tracing::trail_bytes;

// The most bytes of an input and of an answer: those of the longest input of all, which is the join's, with a byte more, and of the two
// lengths before it.
const ROOM: usize = LONGEST + 5;

// How long the record is that stands at the start of out; or the line that refuses it is put there, number 20 too.
fn record_or_line(outcome: Result<usize, Refusal>, out: &mut [u8]) -> usize {
    match outcome {
        Ok(length) => length,
        Err(refusal) => place_line(Line::from(refusal), out),
    }
}

// Cuts fragment k into the first room bytes of out.
fn cut_within(network: &[u8], sheet: &[u8], k: u8, out: &mut [u8], room: usize) -> usize
    requires { room ≤ length out.old }
{
    let outcome = cut(network, sheet, k, &mut out[0..room]);
    record_or_line(outcome, out)
}

// The first network of a case with a lent buffer ends behind its length, or where the input ends.
fn network_end(input: &[u8]) -> usize
    requires { 4 ≤ length input.now }
    ensures { (4 ≤ result) × (result ≤ length input.now) }
{
    let end = 4 + usize::from(u16_at(input, 2));
    end.min(input.len())
}

// Cuts into a lent buffer: the input is the length of the buffer and the length of the network, two bytes each, and then what
// the cutter reads, so that numbers 5 and 20 can be met. Where the lengths are missing, so is the answer.
fn cut_lent(input: &[u8], out: &mut [u8]) -> usize
    requires { 65536 ≤ length out.old }
{
    if input.len() < 4 {
        return 0;
    }
    let room = usize::from(u16_at(input, 0));
    let end = network_end(input);
    if end == input.len() {
        return cut_within(&input[4..end], &input[end..], 0, out, room);
    }
    let behind = end + 1;
    cut_within(&input[4..end], &input[behind..], input[end], out, room)
}

// Joins into a lent buffer: the input is the length of the buffer and the length of the first network, two bytes each, and then what the
// join reads. Where the lengths are missing, so is the answer.
fn join_lent(input: &[u8], out: &mut [u8]) -> usize
    requires { 65536 ≤ length out.old }
{
    if input.len() < 4 {
        return 0;
    }
    let room = usize::from(u16_at(input, 0));
    let end = network_end(input);
    let outcome = join(&input[4..end], &input[end..], &mut out[0..room]);
    record_or_line(outcome, out)
}

// The answer to a case: its length, and the answer itself at the start of out where it fits. A number that calls nothing is
// answered by a line that no case has, since no refusal is number 0.
fn answer(call: u8, input: &[u8], out: &mut [u8]) -> usize
    requires { 65536 ≤ length out.old }
{
    match call {
        0 => judge_bytes(input, out),
        1 => cut_bytes(input, out),
        2 => cut_lent(input, out),
        3 => census_bytes(input, out),
        4 => trail_bytes(input, out),
        5 => join_bytes(input, out),
        6 => join_lent(input, out),
        _ => place_line(Line::Refused(0, usize::from(call)), out),
    }
}

// Writes the answer to a case, and answers whether that was done. Every answer has room; one that had none would end the run.
fn write_answer(rt: &HostRuntime, call: u8, input: &[u8]) -> bool {
    let mut out = [0u8; ROOM];
    let length = answer(call, input, &mut out);
    if ROOM < length {
        return false;
    }
    let head = (length as u32).to_be_bytes();
    let unwritten = b"replay: the length of an answer could not be written\n";
    if write_output(rt, &head, unwritten).is_err() {
        return false;
    }
    let unwritten = b"replay: an answer could not be written\n";
    write_output(rt, &out[0..length], unwritten).is_ok()
}

// Reads the input of a case to the end of room and writes the answer. Answers whether that was done: a case that is cut short
// has no answer.
fn answer_input(rt: &HostRuntime, call: u8, room: &mut [u8]) -> bool {
    let length = room.len();
    let Ok(got) = read_input(rt, room, b"replay: the input of a case could not be read\n") else {
        return false;
    };
    if got < length {
        return false;
    }
    write_answer(rt, call, room)
}

// Reads a case and writes its answer. Answers whether there was one.
fn answer_next(rt: &HostRuntime) -> bool {
    let mut head = [0u8; 5];
    let Ok(got) = read_input(
        rt,
        &mut head,
        b"replay: the head of a case could not be read\n",
    ) else {
        return false;
    };
    if got < 5 {
        return false;
    }
    let length = u32_at(&head, 1) as usize;
    if ROOM < length {
        return false;
    }
    let mut room = [0u8; ROOM];
    answer_input(rt, head[0], &mut room[0..length])
}

// A proved loop has to end, and nothing says that a stream does: there are as many turns as no run uses up.
fn main(rt: HostRuntime) {
    for _ in 0..u64::MAX {
        if !answer_next(&rt) {
            return;
        }
    }
}
