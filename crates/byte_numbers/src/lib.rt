// Numbers in two bytes and in four, high byte first, read and written.
#![tactic(auto)]

ghost use Rattle.std.specs.Prelude.{◌≡◌, ◌+◌, ◌≤◌, ◌<◌, length, get_or};
ghost use Rattle.rules.specs.Bytes.{over};
ghost use Rattle.rules.specs.Stored.{two_bytes, four_bytes};
ghost use Rattle.rules.specs.Storing.{in_two, in_four};

// The number of two bytes, high byte first.
pub fn two_bytes(s: &[u8], at: usize) -> usize
    requires { at + 2 ≤ length s.now }
    ensures { result ≡ two_bytes (get_or s.now at 0) (get_or s.now (at + 1) 0) }
{
    usize::from(u16::from_be_bytes([s[at], s[at + 1]]))
}

// The number of four bytes, high byte first.
pub fn four_bytes(s: &[u8], at: usize) -> usize
    requires { at + 4 ≤ length s.now }
    ensures { result ≡ four_bytes (get_or s.now at 0) (get_or s.now (at + 1) 0) (get_or s.now (at + 2) 0) (get_or s.now (at + 3) 0) }
{
    u32::from_be_bytes([s[at], s[at + 1], s[at + 2], s[at + 3]]) as usize
}

// A number in two bytes, high byte first.
pub fn write_two(n: usize, out: &mut [u8]) -> usize
    requires n_bound { n < 65536 }
    requires in_bounds { 2 ≤ length out.old }
    ensures value { result ≡ 2 }
    ensures out_after { out.new ≡ over (in_two n) out.old }
{
    let [high, low] = (n as u16).to_be_bytes();
    out[0] = high;
    out[1] = low;
    2
}

// A number in four bytes, high byte first.
pub fn write_four(n: usize, out: &mut [u8]) -> usize
    requires n_bound { n < 4294967296 }
    requires in_bounds { 4 ≤ length out.old }
    ensures value { result ≡ 4 }
    ensures out_after { out.new ≡ over (in_four n) out.old }
{
    let high = write_two(n / 65536, out);
    high + write_two(n % 65536, &mut out[high..])
}
