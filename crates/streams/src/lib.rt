// Standard input and standard output for the programs: a read or a write that fails shows.
//
// Where a call of C's fails, these functions say so on standard error, in words that their caller gives, so that no program can fail in
// silence. No contract can say which bytes such a call moves: those here say how many there is room for, and what a program owes for the
// bytes that were read is said by `Answers`.
#![tactic(auto)]

ghost use Rattle.std.specs.Prelude.{◌≡◌, ℕ, List, ◌-◌, ◌<◌, ◌≤◌, length, slice_range};
ghost use Rattle.streams.specs.Answers.{Answers, Bounded};
ghost use Rattle.streams.specs.Input.{Within};

use std::io;
use std::io::{Read, Write};

// A program that reads standard input to its end and writes one answer.
pub trait Program {
    // What is written, of an input.
    ghost text: { List ℕ → List ℕ };

    // The longest input that is answered by more than its length.
    ghost bound: { ℕ };

    // How long the longest answer is.
    ghost longest: { ℕ };

    // What is said on standard error where the input cannot be read, and where the answer cannot be written.
    const UNREAD: &'static [u8];

    const UNWRITTEN: &'static [u8];

    // Puts the answer to an input at the start of a room for the longest one, and answers its length.
    fn answer(&self, input: &[u8], out: &mut [u8]) -> usize
        requires { length out.old ≡ longest }
        ensures fits { result ≤ length out.new }
        ensures text { slice_range out.new 0 result ≡ text input.now };

    // What is behind more bytes than the bound does not show.
    ghost bounded: { Bounded bound text };
}

// Reads, answers and writes. The room holds more than the longest input, so that a longer one shows. What could not be read to its end is not
// answered.
pub fn run<P: Program>(rt: &HostRuntime, program: &P, room: &mut [u8], out: &mut [u8])
    requires { (P.bound < length room.old) × (length out.old ≡ P.longest) }
{
    let Ok(count) = read_input(rt, room, P::UNREAD) else {
        return;
    };
    let length = program.answer(&room[0..count], out);
    write_answer::<P>(rt, room, count, &out[0..length]);
}

// Writes the answer. No contract can say what a call of C's writes, so what is written is said where it is asked: the program's answer to
// the input of which so many bytes were read into the room.
fn write_answer<P: Program>(rt: &HostRuntime, room: &[u8], count: usize, answer: &[u8])
    requires { Answers P.text room.now count answer.now }
{
    let _ = write_output(rt, answer, P::UNWRITTEN);
}

// One read into a room behind the bytes that are done: 0 is the end of the input.
fn read_behind(rt: &HostRuntime, room: &mut [u8], done: usize) -> io::Result<usize>
    requires { done ≤ length room.old }
    ensures { Within result (length room.old - done) }
{
    rt.stdin().read(&mut room[done..])
}

// Reads to the end of standard input, or until the room is full: so many bytes stand at its start. Fewer than there was room for are all of
// the input.
fn read_all(rt: &HostRuntime, room: &mut [u8]) -> io::Result<usize>
    ensures { Within result (length room.new) }
{
    let mut done = 0;
    while done < room.len() {
        let more = read_behind(rt, room, done)?;
        if more == 0 {
            return Ok(done);
        }
        done += more;
    }
    Ok(done)
}

// Says the words on standard error where a call failed. Where that fails too there is nothing left to say it on.
fn said<T>(rt: &HostRuntime, called: io::Result<T>, words: &[u8]) -> io::Result<T>
    ensures { result ≡ called }
{
    if called.is_err() {
        let _ = rt.stderr().write_all(words);
    }
    called
}

// Reads standard input to its end, or until the room is full, and says the words where a read fails.
pub fn read_input(rt: &HostRuntime, room: &mut [u8], words: &[u8]) -> io::Result<usize>
    ensures { Within result (length room.new) }
{
    said(rt, read_all(rt, room), words)
}

// Writes all of a text to standard output, and says the words where a write fails.
pub fn write_output(rt: &HostRuntime, text: &[u8], words: &[u8]) -> io::Result<()> {
    said(rt, rt.stdout().write_all(text), words)
}
