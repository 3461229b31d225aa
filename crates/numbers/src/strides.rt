// The offset of the i-th of equal parts.
ghost use Rattle.std.specs.Prelude.{◌≡◌, ◌+◌, ◌≤◌};
ghost use Rattle.lists.specs.Stride.{at};

// The offset of the i-th of parts of one size behind a base.
pub fn stride(base: usize, size: usize, i: usize) -> usize
    requires { (base ≤ 8388608) × (size ≤ 64) × (i ≤ 65535) }
    ensures { (result ≡ at base size i) × (result ≤ base + 4194304) }
{
    base + i * size
}
