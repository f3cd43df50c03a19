// The number of equal first bytes of two byte strings, and whether they are the same.
#![tactic(auto)]

ghost use Rattle.std.specs.Prelude.{◌≡◌, ◌+◌, ◌*◌, ◌<◌, ◌≤◌, min, length, drop};
ghost use Rattle.rules.specs.Bytes.{same};
ghost use Rattle.rules.specs.Trims.{common_prefix};

use numbers::least;
use same_blocks::same_eights;

// How many first bytes are equal where the first k are, in blocks of N eights from there on. Fewer equal bytes than a block has are left.
fn equal_blocks<const N: usize>(a: &[u8], b: &[u8], k: usize) -> usize
    requires eights { (0 < N) × (N ≤ 8) }
    requires k_in_bounds { (k ≤ length a.now) × (k ≤ length b.now) }
    ensures upper_bound { result ≤ min (length a.now) (length b.now) }
    ensures passes_equal { k + common_prefix (drop k a.now) (drop k b.now) ≡ result + common_prefix (drop result a.now) (drop result b.now) }
    ensures few { common_prefix (drop result a.now) (drop result b.now) < N * 8 }
{
    let size = N * 8;
    let n = least(a.len(), b.len());
    let mut i = k;
    // Kept: no for, since blocks that are counted ahead cost strings of some bytes a third more (docs/SPEED.md).
    while size <= n - i {
        if !same_eights::<N>(a, b, i) {
            return i;
        }
        i += size;
    }
    i
}

pub fn common_prefix_len(a: &[u8], b: &[u8]) -> usize
    ensures { result ≡ common_prefix a.now b.now }
{
    let blocks = equal_blocks::<8>(a, b, 0);
    let eights = equal_blocks::<1>(a, b, blocks);
    let n = least(a.len(), b.len());
    for i in eights..n {
        if a[i] != b[i] {
            return i;
        }
    }
    n
}

// Kept: std's `a == b` has this contract, and takes a third longer on long strings.
pub fn equals(a: &[u8], b: &[u8]) -> bool
    ensures { result ≡ same a.now b.now }
{
    if a.len() != b.len() {
        return false;
    }
    common_prefix_len(a, b) == a.len()
}
