// The number of equal last bytes of two byte strings.
#![tactic(auto)]

ghost use Rattle.std.specs.Prelude.{◌≡◌, ◌+◌, ◌-◌, ◌≤◌, min, length, take};
ghost use Rattle.rules.specs.Trims.{common_suffix};

use same_blocks::same_block;

// How many last bytes are equal, in whole blocks.
fn equal_last_blocks(a: &[u8], b: &[u8]) -> usize
    ensures upper_bound { result ≤ min (length a.now) (length b.now) }
    ensures passes_equal { common_suffix a.now b.now ≡ result + common_suffix (take (length a.now - result) a.now) (take (length b.now - result) b.now) }
{
    let n = a.len().min(b.len());
    for k in 0..n / 64 {
        let i = k * 64;
        let p = a.len() - i - 64;
        let q = b.len() - i - 64;
        if !same_block(&a[p..p + 64], &b[q..q + 64]) {
            return i;
        }
    }
    n - n % 64
}

pub fn common_suffix_len(a: &[u8], b: &[u8]) -> usize
    ensures { result ≡ common_suffix a.now b.now }
{
    let n = a.len().min(b.len());
    let blocks = equal_last_blocks(a, b);
    for i in blocks..n {
        if a[a.len() - 1 - i] != b[b.len() - 1 - i] {
            return i;
        }
    }
    n
}
