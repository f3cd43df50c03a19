// Small helpers on numbers.
#![tactic(auto)]

ghost use Rattle.std.specs.Prelude.{◌≡◌, ◌+◌, ◌/◌, ◌<◌, ◌≤◌, min, length};
ghost use Rattle.numbers.specs.Packed.{four_at, eight_at};

// The smaller of two numbers.
pub fn least(a: usize, b: usize) -> usize
    ensures { result ≡ min a b }
{
    a.min(b)
}

// A byte as a number.
pub fn wide(b: u8) -> usize
    ensures value { result ≡ b }
    ensures small { result < 256 }
{
    usize::from(b)
}

// A third, rounded up.
pub fn thirds(n: usize) -> usize
    ensures { result ≡ (n + 2) / 3 }
{
    n.div_ceil(3)
}

// Four bytes from place k on as one number, the first lowest.
fn four_at(s: &[u8], k: usize) -> usize
    requires { k + 4 ≤ length s.now }
    ensures value { result ≡ four_at s.now k }
    ensures small { result < 4294967296 }
{
    wide(s[k]) + wide(s[k + 1]) * 256 + wide(s[k + 2]) * 65536 + wide(s[k + 3]) * 16777216
}

// Eight bytes, in the same way.
pub fn eight_at(s: &[u8], k: usize) -> usize
    requires { k + 8 ≤ length s.now }
    ensures { result ≡ eight_at s.now k }
{
    four_at(s, k) + four_at(s, k + 4) * 4294967296
}
