// The altered transcript read over its plan, without writing it.
#![tactic(auto)]

mod writing;

ghost use Rattle.std.specs.Prelude.{◌≡◌, ◌+◌, ◌*◌, ◌≤◌, ◌<◌, length, get_or};
ghost use Rattle.std.specs.Fn.{FnOnceReturnsAt};
ghost use Rattle.rules.specs.Letters.{letter_set};
ghost use Rattle.rules.specs.Codons.{codon};
ghost use Rattle.rules.specs.Translation.{exception_list, excepted};
ghost use Rattle.rules.specs.Complement.{complement};
ghost use Rattle.rules.specs.Altered.{part};
ghost use Rattle.rules.specs.Packed.{letters_by};
ghost use Rattle.rules.specs.Trims.{common_prefix, common_suffix};
ghost use Rattle.rules.specs.Exceptions.{suffix_behind, moved_all};
ghost use Rattle.exceptions.specs.Moving.{Given};
ghost use Rattle.edits.specs.Plans.{goes_in};
ghost use Rattle.transcript.specs.Carrying.{Sourced, carried_by};
ghost use Rattle.altered.specs.Over.{Makes, Stretch, Within};

use codon_reader::read_by_plain;
use codons::tables::plain_code;
use edits::plans::{Plan, Source};
use excepted::excepted_at;
use exceptions::moved_all;
use letters::letter_set;
use packed::{prefix_by, size_of, suffix_by};
use rules::{Exceptions, Form};
pub use writing::write_stretch;

// The complement of a letter, without a table.
#[tactic(auto, unfolding(rules::specs::Complement::partner_in, rules::specs::Complement::complement))]
fn complement_of(b: u8) -> u8
    ensures { result ≡ complement b }
{
    match b {
        b'A' => b'T',
        b'T' => b'A',
        b'C' => b'G',
        b'G' => b'C',
        b'R' => b'Y',
        b'Y' => b'R',
        b'K' => b'M',
        b'M' => b'K',
        b'B' => b'V',
        b'V' => b'B',
        b'D' => b'H',
        b'H' => b'D',
        _ => b,
    }
}

// A letter of what goes in, by its source.
fn put_at(letters: &[u8], form: Form, plan: Plan, new: &[u8], i: usize) -> u8
    requires sourced { Sourced plan (letters_by form letters.now) new.now }
    requires i_lt_kept { i < plan.kept }
    ensures { result ≡ get_or (goes_in plan (letters_by form letters.now) new.now) i 0 }
{
    let source = plan.source;
    let start = plan.start;
    let end = plan.end;
    match source {
        Source::New => new[i],
        Source::Copy => packed::letter_at(letters, form, start + i),
        Source::Turned => complement_of(packed::letter_at(letters, form, end - 1 - i)),
    }
}

// A letter of the altered transcript: before the edit, of what goes in, or behind the edit.
pub fn letter_at(letters: &[u8], form: Form, plan: Plan, new: &[u8], i: usize) -> u8
    requires makes { Makes plan (letters_by form letters.now) new.now }
    requires i_in_bounds { i < length (carried_by plan (letters_by form letters.now) new.now) }
    ensures { result ≡ get_or (carried_by plan (letters_by form letters.now) new.now) i 0 }
{
    let from = plan.from;
    let to = plan.to;
    let kept = plan.kept;
    if i < from {
        return packed::letter_at(letters, form, i);
    }
    let past = i - from;
    if past < kept {
        return put_at(letters, form, plan, new, past);
    }
    packed::letter_at(letters, form, past - kept + to)
}

// The set of a letter of the altered transcript.
fn set_at(letters: &[u8], form: Form, plan: Plan, new: &[u8], i: usize) -> usize
    requires makes { Makes plan (letters_by form letters.now) new.now }
    requires i_in_bounds { i < length (carried_by plan (letters_by form letters.now) new.now) }
    ensures value { result ≡ letter_set (get_or (carried_by plan (letters_by form letters.now) new.now) i 0) }
    ensures some { (0 < result) × (result < 16) }
{
    letter_set(letter_at(letters, form, plan, new, i))
}

// The residue of a codon of the altered transcript, counted from 0 behind `first`, exceptions applied.
#[tactic(auto, unfolding(rules::specs::Codons::codon))]
pub fn residue_at(
    letters: &[u8],
    form: Form,
    table: usize,
    plan: Plan,
    new: &[u8],
    e: Exceptions,
    first: usize,
    k: usize,
) -> u8
    requires makes { Makes plan (letters_by form letters.now) new.now }
    requires k_in_bounds { first + k * 3 + 3 ≤ length (carried_by plan (letters_by form letters.now) new.now) }
    requires table_bound { (table < 3) × (e.count ≤ 16) }
    ensures { result ≡ excepted (exception_list e) (k + 1) (codon table (get_or (carried_by plan (letters_by form letters.now) new.now) (first + k * 3) 0) (get_or (carried_by plan (letters_by form letters.now) new.now) (first + k * 3 + 1) 0) (get_or (carried_by plan (letters_by form letters.now) new.now) (first + k * 3 + 2) 0)) }
{
    let at = first + k * 3;
    let a = set_at(letters, form, plan, new, at);
    let b = set_at(letters, form, plan, new, at + 1);
    let c = set_at(letters, form, plan, new, at + 2);
    let code = plain_code(table);
    excepted_at(e, k + 1, read_by_plain(table, &code, a, b, c))
}

// How many letters from a place on, and at most `most`, lie in what goes in, or behind it.
fn stretch_letters(plan: Plan, at: usize, most: usize) -> usize
    requires { plan.from + plan.kept < 8589934592 }
    ensures { Within plan at most result }
{
    let back = plan.from + plan.kept;
    if at < back {
        return (back - at).min(most);
    }
    most
}

// What a closure tells of n letters of the altered transcript from a place on, which are written to a block.
fn told_of_block<F: FnOnce(&[u8]) -> usize>(
    letters: &[u8],
    form: Form,
    plan: Plan,
    new: &[u8],
    at: usize,
    n: usize,
    tell: F,
) -> usize
    requires makes { Makes plan (letters_by form letters.now) new.now }
    requires stretch { Stretch plan at n (length (carried_by plan (letters_by form letters.now) new.now)) }
    requires n_bound { n ≤ 512 }
    requires callable { F.IsAlwaysCallable tell }
    ensures { FnOnceReturnsAt F.FnOnce tell (part at (at + n) (carried_by plan (letters_by form letters.now) new.now)) result }
{
    let mut room = [0u8; 512];
    let block = &mut room[..n];
    write_stretch(letters, form, plan, new, at, block);
    tell(block)
}

// How many first letters an edit leaves: those before it, and those equal behind them, in blocks, the first of them short. The altered transcript
// has `made` bases, here and below.
fn shared_front(letters: &[u8], form: Form, plan: Plan, new: &[u8], made: usize) -> usize
    requires makes { Makes plan (letters_by form letters.now) new.now }
    requires made_value { made ≡ length (carried_by plan (letters_by form letters.now) new.now) }
    ensures { result ≡ common_prefix (letters_by form letters.now) (carried_by plan (letters_by form letters.now) new.now) }
{
    let n = size_of(letters, form).min(made);
    let from = plan.from;
    let mut i = from;
    // Kept: no for, since each turn finds how far it goes.
    while i < n {
        let most = ((i - from) * 4 + 16).min(512);
        let step = stretch_letters(plan, i, most.min(n - i));
        let found = told_of_block(letters, form, plan, new, i, step, |block| {
            prefix_by(letters, form, i, i + step, block)
        });
        if found < step {
            return i + found;
        }
        i += step;
    }
    n
}

// Kept: a loop beside that of `shared_front`, since its blocks are placed by two ends and need no end of what goes in: one loop over both takes a closure with clauses as long as the loop.
// How many last letters it leaves behind the prefix: those behind the edit, and those equal before them, in blocks too, all of what goes in.
fn shared_back(
    letters: &[u8],
    form: Form,
    plan: Plan,
    new: &[u8],
    made: usize,
    prefix: usize,
) -> usize
    requires makes { Makes plan (letters_by form letters.now) new.now }
    requires made_value { made ≡ length (carried_by plan (letters_by form letters.now) new.now) }
    requires from_le_prefix { (plan.from ≤ prefix) × (prefix ≤ length (letters_by form letters.now)) × (prefix ≤ made) }
    ensures { result ≡ suffix_behind prefix (letters_by form letters.now) (carried_by plan (letters_by form letters.now) new.now) }
{
    let size = size_of(letters, form);
    let n = size.min(made) - prefix;
    let first = (size - plan.to).min(n);
    let mut i = first;
    // Kept: no for, since each turn finds how far it goes.
    while i < n {
        let most = ((i - first) * 4 + 16).min(512);
        let step = most.min(n - i);
        let end = i + step;
        let old = size - end;
        let found = told_of_block(letters, form, plan, new, made - end, step, |block| {
            suffix_by(letters, form, old, old + step, block)
        });
        if found < step {
            return i + found;
        }
        i = end;
    }
    n
}

// The exceptions of the altered transcript. The CDS begins at index `first`.
pub fn moved_over(
    letters: &[u8],
    form: Form,
    plan: Plan,
    new: &[u8],
    first: usize,
    e: Exceptions,
) -> Exceptions
    requires makes { Makes plan (letters_by form letters.now) new.now }
    requires first_le_from { first ≤ plan.from }
    requires given { Given first (letters_by form letters.now) e }
    ensures result_value { exception_list result ≡ moved_all (common_prefix (letters_by form letters.now) (carried_by plan (letters_by form letters.now) new.now)) first (letters_by form letters.now) (carried_by plan (letters_by form letters.now) new.now) (exception_list e) }
    ensures few { result.count ≤ 16 }
{
    if e.count == 0 {
        return e;
    }
    let size = size_of(letters, form);
    let made = plan.from + plan.kept + (size - plan.to);
    let prefix = shared_front(letters, form, plan, new, made);
    let suffix = shared_back(letters, form, plan, new, made, prefix);
    moved_all(e, first, prefix, suffix, size, made)
}
