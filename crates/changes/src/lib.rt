// The change of R to A behind the residues that they share, and the residues that a duplication copies.
#![tactic(auto)]

ghost use Rattle.std.specs.Prelude.{◌≡◌, ◌+◌, ◌≤◌, length, get_or};
ghost use Rattle.rules.specs.Record.{is_copy, first_copied, change_at};

use classes::class_of;
use rules::{Change, Class, Part};
use sequences::equals;

// The byte at i, or 0 past the end.
pub fn byte_at(s: &[u8], i: usize) -> u8
    ensures { result ≡ get_or s.now i 0 }
{
    if i < s.len() { s[i] } else { 0 }
}

// The number of the first residue that a duplication of n copies, 0 in every other class.
pub fn first_copied(class: Class, number: usize, n: usize) -> usize
    requires { class ≡ Class.Duplication → n ≤ number }
    ensures { result ≡ first_copied class number n }
{
    match class {
        Class::Duplication => number - n,
        _ => 0,
    }
}

// Whether the n residues of A at a number stand in R just before it.
fn check_if_ins_is_dup(r: &[u8], a: &[u8], number: usize, n: usize) -> bool
    requires { (number ≤ length r.now + 1) × (number + n ≤ length a.now + 1) }
    ensures { result ≡ is_copy number n r.now a.now }
{
    if n < number {
        let s = number - 1;
        equals(&r[s - n..s], &a[s..s + n])
    } else {
        false
    }
}

// The change of R to A behind s shared residues, up to an ending of n residues.
pub fn change_at(r: &[u8], a: &[u8], flag: bool, s: usize, n: usize) -> Change
    requires { (s + n ≤ length r.now) × (s + n ≤ length a.now) }
    ensures { result ≡ change_at flag s n r.now a.now }
{
    let deleted = r.len() - s - n;
    let inserted = a.len() - s - n;
    let number = s + 1;
    let copy = check_if_ins_is_dup(r, a, number, inserted);
    let class = class_of(
        number,
        deleted,
        inserted,
        byte_at(r, s),
        byte_at(a, s),
        flag,
        copy,
    );
    let first = first_copied(class, number, inserted);
    Change {
        class,
        number,
        deleted: Part {
            at: s,
            len: deleted,
        },
        inserted: Part {
            at: s,
            len: inserted,
        },
        first,
    }
}
