// Numbers as a record holds them: big-endian. Their decimal digits, which `lines` puts into a text, are among the definitions.
//
// The readers and writers of a record's numbers ask for the room that they touch: their callers have tested the whole
// record before, and a second test at each number would only cost time.
#![tactic(auto)]

mod runs;
mod strides;

ghost use Rattle.std.specs.Prelude.{◌≡◌, [], ◌∷◌, ◌+◌, ◌≤◌, ◌<◌, length};
ghost use Rattle.std.proofs.lemmas.List.Edits.{sets};
ghost use Rattle.numbers.specs.BigEndian.{u16_at, u32_at, u16_bytes, u32_bytes};

pub use runs::{all_zero, put_part, put_zeros};
pub use strides::stride;

// The number of the two bytes of b at an offset.
pub fn u16_at(b: &[u8], at: usize) -> u16
    requires { at + 2 ≤ length b.now }
    ensures { result ≡ u16_at b.now at }
{
    u16::from_be_bytes([b[at], b[at + 1]])
}

// The number of the four bytes of b at an offset.
pub fn u32_at(b: &[u8], at: usize) -> u32
    requires { at + 4 ≤ length b.now }
    ensures { result ≡ u32_at b.now at }
{
    u32::from_be_bytes([b[at], b[at + 1], b[at + 2], b[at + 3]])
}

// Stores N bytes of out at an offset. The other bytes keep their values.
fn put_bytes<const N: usize>(out: &mut [u8], at: usize, bytes: [u8; N])
    requires { at + N ≤ length out.old }
    ensures { out.new ≡ sets out.old at bytes.entry }
{
    out[at..at + N].copy_from_slice(&bytes);
}

// Stores v as the byte of out at an offset. The other bytes keep their values.
pub fn put_u8(out: &mut [u8], at: usize, v: u8)
    requires { at + 1 ≤ length out.old }
    ensures { out.new ≡ sets out.old at (v ∷ []) }
{
    out[at] = v;
}

// Stores v as two bytes of out at an offset. The other bytes keep their values.
pub fn put_u16(out: &mut [u8], at: usize, v: u16)
    requires { at + 2 ≤ length out.old }
    ensures { out.new ≡ sets out.old at (u16_bytes v) }
{
    put_bytes(out, at, u16::to_be_bytes(v));
}

// Stores v as four bytes of out at an offset. The other bytes keep their values.
pub fn put_u32(out: &mut [u8], at: usize, v: u32)
    requires { at + 4 ≤ length out.old }
    ensures { out.new ≡ sets out.old at (u32_bytes v) }
{
    put_bytes(out, at, u32::to_be_bytes(v));
}
