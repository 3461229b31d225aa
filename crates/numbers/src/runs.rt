// Runs of bytes: looked at, and stored at an offset.
ghost use Rattle.std.specs.Prelude.{◌≡◌, ◌+◌, ◌≤◌, length, take, drop, replicate};
ghost use Rattle.std.proofs.lemmas.List.Edits.{sets};
ghost use Rattle.numbers.specs.Zeros.{zeros};

// Whether the n bytes of b at an offset are zero. All of them are looked at, so that a run of known length is a few wide loads.
pub fn all_zero(b: &[u8], at: usize, n: usize) -> bool
    requires { at + n ≤ length b.now }
    ensures { result ≡ zeros b.now at n }
{
    b[at..at + n].iter().fold(0, |seen, x| seen | *x) == 0
}

// Stores n zero bytes of out at an offset. The other bytes keep their values.
pub fn put_zeros(out: &mut [u8], at: usize, n: usize)
    requires { at + n ≤ length out.old }
    ensures { out.new ≡ sets out.old at (replicate n 0) }
{
    out[at..at + n].fill(0);
}

// Stores n bytes of src, which begin at a, as bytes of out at an offset. The other bytes keep their values.
pub fn put_part(out: &mut [u8], at: usize, src: &[u8], a: usize, n: usize)
    requires { (a + n ≤ length src.now) × (at + n ≤ length out.old) }
    ensures { out.new ≡ sets out.old at (take n (drop a src.now)) }
{
    let end = a + n;
    out[at..at + n].copy_from_slice(&src[a..end]);
}
