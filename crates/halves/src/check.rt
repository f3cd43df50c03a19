// Which letters packed bytes hold.
ghost use Rattle.std.specs.Prelude.{◌≡◌, ℕ, Bool, false, ◌<◌, length};
ghost use Rattle.bytewise.specs.Tests.{Computes};
ghost use Rattle.rules.specs.Bytes.{all};
ghost use Rattle.rules.specs.Letters.{is_letter};
ghost use Rattle.rules.specs.Packed.{half_up, unpacked};
ghost use Rattle.rules.specs.Letters.{is_base};
ghost use Rattle.halves.specs.Halves.{are_pair, is_last};

use bytewise::all_blocks;
use std::num::wrapping_sub_u8;

// Whether both halves of a byte are letters: neither is empty.
fn is_pair(b: u8) -> bool
    ensures { result ≡ are_pair is_letter b }
{
    (15 < b) & (b % 16 != 0)
}

// Whether both are one base: neither is empty, and taking 1 from each leaves no bit in common.
fn is_base_pair(b: u8) -> bool
    ensures { result ≡ are_pair is_base b }
{
    let less = wrapping_sub_u8(b, 17);
    (15 < b) & (b % 16 != 0) & ((b & less) == 0)
}

// Whether the high half of an odd last byte is a letter, and its spare half zero.
fn is_last(b: u8) -> bool
    ensures { result ≡ is_last is_letter b }
{
    (15 < b) & (b % 16 == 0)
}

// The same of one base.
fn is_last_base(b: u8) -> bool
    ensures { result ≡ is_last is_base b }
{
    (b == 16) | (b == 32) | (b == 64) | (b == 128)
}

// Whether all of so many letters pass: those of whole bytes by a test of a byte, and that of an odd last byte, whose spare half is zero.
fn packed_pass<P: Fn(u8) -> bool, L: Fn(u8) -> bool>(
    packed: &[u8],
    size: usize,
    pair: P,
    last: L,
) -> bool
    requires size_value { (0 < size) × (length packed.now ≡ half_up size) }
    requires pair_callable { P.IsAlwaysCallable pair }
    requires last_callable { L.IsAlwaysCallable last }
    ensures { (p : ℕ → Bool) → p 0 ≡ false → Computes (P.post pair) (are_pair p) → Computes (L.post last) (is_last p) → result ≡ all p (unpacked size packed.now) }
{
    let whole = size / 2;
    if !all_blocks(&packed[..whole], pair) {
        return false;
    }
    if size % 2 == 0 {
        return true;
    }
    last(packed[whole])
}

// Whether all of so many letters are letters, and the spare half is zero.
pub fn packed_letters(packed: &[u8], size: usize) -> bool
    requires { (0 < size) × (length packed.now ≡ half_up size) }
    ensures { result ≡ all is_letter (unpacked size packed.now) }
{
    packed_pass(packed, size, is_pair, is_last)
}

// Whether all of them are one base each.
pub fn packed_bases(packed: &[u8], size: usize) -> bool
    requires { (0 < size) × (length packed.now ≡ half_up size) }
    ensures { result ≡ all is_base (unpacked size packed.now) }
{
    packed_pass(packed, size, is_base_pair, is_last_base)
}
