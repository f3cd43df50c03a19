// "Positions and edits": exceptions move.
#![tactic(auto)]

ghost use Rattle.std.specs.Prelude.{◌≡◌, true, List, ℕ, ◌+◌, ◌*◌, ◌≤◌, length};
ghost use Rattle.rules.specs.Bytes.{all};
ghost use Rattle.rules.specs.Letters.{is_letter};
ghost use Rattle.rules.specs.Translation.{exception_list};
ghost use Rattle.rules.specs.Packed.{letters_by};
ghost use Rattle.rules.specs.Trims.{common_prefix};
ghost use Rattle.rules.specs.Exceptions.{moved_one, moved_all};
ghost use Rattle.exceptions.specs.Moving.{left_of, Moves, Given, Rises, Lengths, Shared};

use packed::{prefix_by, size_of, suffix_by};
use rules::{Exception, Exceptions, Form};

// A codon wholly in the prefix stays; one wholly in the suffix moves by the length change if it lands in frame; the others are dropped.
fn moved_one(
    x: Exception,
    first: usize,
    prefix: usize,
    suffix: usize,
    size: usize,
    made: usize,
) -> Option<Exception>
    requires lengths { Lengths first prefix suffix size made }
    requires le_codon { (1 ≤ x.codon) × (first + 3 * x.codon ≤ size) }
    ensures { (old new : List ℕ) → Shared prefix suffix size made old new → left_of result ≡ moved_one prefix first old new x }
{
    let at = first + 3 * (x.codon as usize - 1);
    if at + 3 <= prefix {
        return Some(x);
    }
    if at < size - suffix {
        return None;
    }
    let to = at + made - size;
    if to % 3 != first % 3 {
        return None;
    }
    Some(Exception {
        codon: ((to - first) / 3 + 1) as u32,
        residue: x.residue,
    })
}

// All of them, in their order, where a transcript of `size` bases becomes one of `made`: a promise of whatever letters share the prefix and the suffix.
pub fn moved_all(
    e: Exceptions,
    first: usize,
    prefix: usize,
    suffix: usize,
    size: usize,
    made: usize,
) -> Exceptions
    requires lengths { Lengths first prefix suffix size made }
    requires rises { Rises first size e }
    ensures by_index { (old new : List ℕ) → Shared prefix suffix size made old new → exception_list result ≡ moved_all prefix first old new (exception_list e) }
    ensures few { result.count ≤ 16 }
{
    let given = &e.all[..e.count];
    let mut all = e.all;
    let mut count = 0;
    for x in given {
        if let Some(y) = moved_one(*x, first, prefix, suffix, size, made) {
            all[count] = y;
            count += 1;
        }
    }
    Exceptions { all, count }
}

// The exceptions of the transcript `new` that an edit makes of `old`, whose CDS begins at index `first`.
pub fn alt_translation_exceptions(
    old: &[u8],
    form: Form,
    new: &[u8],
    first: usize,
    e: Exceptions,
) -> Exceptions
    requires value { all is_letter (letters_by form old.now) ≡ true }
    requires moves { Moves first (letters_by form old.now) new.now }
    requires given { Given first (letters_by form old.now) e }
    ensures result_value { exception_list result ≡ moved_all (common_prefix (letters_by form old.now) new.now) first (letters_by form old.now) new.now (exception_list e) }
    ensures few { result.count ≤ 16 }
{
    if e.count == 0 {
        return e;
    }
    let size = size_of(old, form);
    let prefix = prefix_by(old, form, 0, size, new);
    let suffix = suffix_by(old, form, prefix, size, &new[prefix..]);
    moved_all(e, first, prefix, suffix, size, new.len())
}
