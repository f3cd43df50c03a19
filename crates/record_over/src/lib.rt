// The record of R and an A that isn't written out: the first `head` residues of R, residues that are lent, and R from residue `back` on.
#![tactic(auto)]

ghost use Rattle.std.specs.Prelude.{◌≡◌, ◌&&◌, List, ◌++◌, ℕ, ◌+◌, ◌-◌, ◌≤◌, ◌<◌, ltb, length, take, drop};
ghost use Rattle.rules.specs.Bytes.{same};
ghost use Rattle.rules.specs.Record.{change_at, record_from};
ghost use Rattle.joined.specs.Joined.{joined, Joins};
ghost use Rattle.record_over.specs.Seen.{change_from, seen_from, inserted_of, Differs};

use changes::{byte_at, first_copied};
use classes::class_of;
use joined::{beginning_over, ending_over, residue_over};
use rules::{Change, Part, Record};
use sequences::equals;

// Behind the first m residues of a buffer, those of R from `back` on, so that `end` stand there.
fn write_on(r: &[u8], back: usize, m: usize, end: usize, out: &mut [u8])
    requires m_in_bounds { (m ≤ length out.old) × (end ≤ length out.old) }
    requires r_in_bounds { back + (end - m) ≤ length r.now }
    ensures { take end out.new ≡ take end (take m out.old ++ drop back r.now) }
{
    if m < end {
        let last = back + (end - m);
        bytewise::copy(&r[back..last], &mut out[m..]);
    }
}

// Whether inserted residues stand in R just before a number.
fn is_copy_of(r: &[u8], inserted: &[u8], number: usize) -> bool
    requires { number ≤ length r.now + 1 }
    ensures { result ≡ (ltb (length inserted.now) number && same (take (length inserted.now) (drop (number - 1 - length inserted.now) r.now)) inserted.now) }
{
    let n = inserted.len();
    if n < number {
        let s = number - 1;
        return equals(&r[s - n..s], inserted);
    }
    false
}

// The change of R to A behind s shared residues, by what A has there, counted from `head` on.
fn change_over(
    r: &[u8],
    inserted: &[u8],
    flag: bool,
    s: usize,
    head: usize,
    deleted: usize,
    altered: u8,
) -> Change
    requires { (head ≤ s) × (s ≤ length r.now) }
    ensures { (A : List ℕ) (n : ℕ) → Differs r.now A s n inserted.now deleted altered → result ≡ change_from head (change_at flag s n r.now A) }
{
    let number = s + 1;
    let n = inserted.len();
    let copy = is_copy_of(r, inserted, number);
    let class = class_of(number, deleted, n, byte_at(r, s), altered, flag, copy);
    let first = first_copied(class, number, n);
    Change {
        class,
        number,
        deleted: Part {
            at: s,
            len: deleted,
        },
        inserted: Part {
            at: s - head,
            len: n,
        },
        first,
    }
}

// The record of R and A; `number` is the one that a silent record has. The buffer holds m residues that stand between those of R; the record's
// inserted residues are counted in it, and what they lack of R is written behind the m.
pub fn record_over(
    r: &[u8],
    m: usize,
    head: usize,
    back: usize,
    flag: bool,
    number: usize,
    out: &mut [u8],
) -> Record
    requires le_number { (1 ≤ number) × (m ≤ length out.old) }
    requires joins { Joins head back r.now (take m out.old) }
    requires out_in_bounds { length (joined head back r.now (take m out.old)) ≤ length out.old }
    ensures value { result ≡ seen_from head (record_from flag number r.now (joined head back r.now (take m out.old))) }
    ensures inserted { inserted_of result out.new ≡ inserted_of (record_from flag number r.now (joined head back r.now (take m out.old))) (joined head back r.now (take m out.old)) }
{
    let long = head + m + (r.len() - back);
    if long == 0 {
        return Record::NoProtein;
    }
    let s = beginning_over(r, &out[..m], head, back);
    if (s == r.len()) & (s == long) {
        let residue = byte_at(r, number - 1);
        return Record::Silent { number, residue };
    }
    let n = ending_over(r, &out[..m], head, back, s, flag);
    let altered = residue_over(r, &out[..m], head, back, s);
    let at = s - head;
    let end = long - n - head;
    write_on(r, back, m, end, out);
    let deleted = r.len() - s - n;
    Record::Changed(change_over(r, &out[at..end], flag, s, head, deleted, altered))
}
