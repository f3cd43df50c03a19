// Whether two blocks of bytes are the same, many bytes at a time.
#![tactic(auto)]

ghost use Rattle.std.specs.Prelude.{◌≡◌, ◌+◌, ◌*◌, ◌<◌, ◌≤◌, length, take, drop};
ghost use Rattle.rules.specs.Bytes.{same};

use numbers::eight_at;

// Whether two blocks are the same. It looks at all of both, so that it goes many bytes at a time.
pub fn same_block(a: &[u8], b: &[u8]) -> bool
    requires { length a.now ≡ length b.now }
    ensures { result ≡ same a.now b.now }
{
    let mut good = true;
    for i in 0..a.len() {
        good &= a[i] == b[i];
    }
    good
}

// Whether the eight bytes from place k on are the same.
fn same_eight(a: &[u8], b: &[u8], k: usize) -> bool
    requires { (k + 8 ≤ length a.now) × (k + 8 ≤ length b.now) }
    ensures { result ≡ same (take 8 (drop k a.now)) (take 8 (drop k b.now)) }
{
    eight_at(a, k) == eight_at(b, k)
}

// Whether the N eights from place k on are the same. It looks at all of them, as `same_block` does.
pub fn same_eights<const N: usize>(a: &[u8], b: &[u8], k: usize) -> bool
    requires some { 0 < N }
    requires in_bounds { (k + N * 8 ≤ length a.now) × (k + N * 8 ≤ length b.now) }
    ensures { result ≡ same (take (N * 8) (drop k a.now)) (take (N * 8) (drop k b.now)) }
{
    let mut good = true;
    for i in 0..N {
        good &= same_eight(a, b, k + i * 8);
    }
    good
}
