// Which letters a byte string has.
ghost use Rattle.std.specs.Prelude.{◌≡◌, ℕ, Bool, true, map, ◌*◌, ◌≤◌, length, take};
ghost use Rattle.rules.specs.Bytes.{all};
ghost use Rattle.rules.specs.Letters.{is_letter, folded};
ghost use Rattle.bytewise.specs.Tests.{Computes};
ghost use Rattle.letters.specs.Sets.{folds_to_base, is_base};

use bytewise::{all_blocks, all_bytes};
use letters::{folds_to_base, folds_to_letter, is_base};

// Whether each byte of a few passes a test, by eights. So that nothing is left to be tested one at a time, the last eight are tested by themselves.
fn few_pass<F: Fn(u8) -> bool>(s: &[u8], test: F) -> bool
    requires { F.IsAlwaysCallable test }
    ensures { (p : ℕ → Bool) → Computes (F.post test) p → result ≡ all p s.now }
{
    let whole = s.len() - s.len() % 8;
    let last = s.len() - s.len().min(8);
    all_bytes(&s[..whole], &test) & all_bytes(&s[last..], &test)
}

// Whether each byte is a letter of plain translation.
pub(crate) fn all_fold_to_letters(s: &[u8]) -> bool
    ensures { result ≡ all is_letter (map folded s.now) }
{
    few_pass(s, folds_to_letter)
}

// The same of bytes of which it may be known that all are bases.
pub(crate) fn are_letters(s: &[u8], plain: bool) -> bool
    requires { plain ≡ true → all folds_to_base s.now ≡ true }
    ensures { result ≡ all is_letter (map folded s.now) }
{
    if plain {
        return true;
    }
    all_fold_to_letters(s)
}

// Whether each of so many blocks of N bytes is of bases. The first with another letter ends it, and the length of each is known where it is tested.
fn blocks_fold_to_bases<const N: usize>(s: &[u8], blocks: usize) -> bool
    requires { blocks * N ≤ length s.now }
    ensures { result ≡ all folds_to_base (take (blocks * N) s.now) }
{
    for k in 0..blocks {
        let at = k * N;
        if !all_bytes(&s[at..at + N], folds_to_base) {
            return false;
        }
    }
    true
}

// Whether each byte is a base of plain translation: A, C, G, T, U, of either case. By blocks of 256 that leave sixteen or more, then by sixteens,
// of which the last are tested by themselves.
pub(crate) fn all_fold_to_bases(s: &[u8]) -> bool
    ensures { result ≡ all folds_to_base s.now }
{
    if s.len() < 16 {
        return few_pass(s, folds_to_base);
    }
    let large = (s.len() - 16) / 256;
    if !blocks_fold_to_bases::<256>(s, large) {
        return false;
    }
    let rest = &s[large * 256..];
    if !blocks_fold_to_bases::<16>(rest, (rest.len() - 1) / 16) {
        return false;
    }
    let last = s.len() - 16;
    all_bytes(&s[last..], folds_to_base)
}

// Whether each byte is one of A, C, G and T. The first block with another letter ends it.
pub fn all_bases(s: &[u8]) -> bool
    ensures { result ≡ all is_base s.now }
{
    all_blocks(s, is_base)
}
