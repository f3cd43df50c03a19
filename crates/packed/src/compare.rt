// Packed letters beside letters a byte each: a block of them at a time is unpacked into a local.
ghost use Rattle.std.specs.Prelude.{◌≡◌, ◌+◌, ◌*◌, ◌≤◌, ◌<◌, length};
ghost use Rattle.rules.specs.Trims.{common_prefix, common_suffix};
ghost use Rattle.rules.specs.Altered.{part};
ghost use Rattle.rules.specs.Packed.{letters_in};
ghost use Rattle.packed.specs.Halves.{HoldsPairs};

use crate::unpack::unpack_part;
use sequences::{common_prefix_len, common_suffix_len};

// How many first letters from a place on are equal to a block's.
fn block_prefix(packed: &[u8], at: usize, pairs: &[u16; 256], new: &[u8]) -> usize
    requires holds_pairs { HoldsPairs pairs.now }
    requires len_bound { length new.now ≤ 64 }
    requires in_bounds { at + length new.now ≤ length packed.now * 2 }
    ensures { result ≡ common_prefix (part at (at + length new.now) (letters_in packed.now)) new.now }
{
    let mut block = [0u8; 64];
    let n = new.len();
    unpack_part(packed, at, at + n, pairs, &mut block);
    common_prefix_len(&block[..n], new)
}

// How many first letters of from..to are equal to the first bytes of `new`.
pub(crate) fn part_prefix_len(
    packed: &[u8],
    from: usize,
    to: usize,
    pairs: &[u16; 256],
    new: &[u8],
) -> usize
    requires holds_pairs { HoldsPairs pairs.now }
    requires from_le_to { from ≤ to }
    requires to_in_bounds { to ≤ length packed.now * 2 }
    ensures { result ≡ common_prefix (part from to (letters_in packed.now)) new.now }
{
    let n = new.len().min(to - from);
    for i in (0..n).step_by(64) {
        let end = n.min(i + 64);
        let found = block_prefix(packed, from + i, pairs, &new[i..end]);
        if found < end - i {
            return i + found;
        }
    }
    n
}

// How many last letters, up to a place, are equal to a block's.
// Kept: it differs from block_prefix in the comparison that it calls, and a function of a comparison of two slices would say no less than both.
fn block_suffix(packed: &[u8], at: usize, pairs: &[u16; 256], new: &[u8]) -> usize
    requires holds_pairs { HoldsPairs pairs.now }
    requires len_bound { length new.now ≤ 64 }
    requires in_bounds { at + length new.now ≤ length packed.now * 2 }
    ensures { result ≡ common_suffix (part at (at + length new.now) (letters_in packed.now)) new.now }
{
    let mut block = [0u8; 64];
    let n = new.len();
    unpack_part(packed, at, at + n, pairs, &mut block);
    common_suffix_len(&block[..n], new)
}

// How many last letters of from..to are equal to the last bytes of `new`: `left` more are to be looked at, before p and before q.
pub(crate) fn part_suffix_len(
    packed: &[u8],
    from: usize,
    to: usize,
    pairs: &[u16; 256],
    new: &[u8],
) -> usize
    requires holds_pairs { HoldsPairs pairs.now }
    requires from_le_to { from ≤ to }
    requires to_in_bounds { to ≤ length packed.now * 2 }
    ensures { result ≡ common_suffix (part from to (letters_in packed.now)) new.now }
{
    let n = new.len().min(to - from);
    let mut p = to;
    let mut q = new.len();
    let mut left = n;
    // Kept: the blocks go from the end, and the last of them may be short: how far a turn moves back is computed in it.
    while 0 < left {
        let k = left.min(64);
        let at = p - k;
        let start = q - k;
        let found = block_suffix(packed, at, pairs, &new[start..q]);
        if found < k {
            return n - left + found;
        }
        p = at;
        q = start;
        left = left - k;
    }
    n
}
