// Whether a proposed record replays on two proteins, R and A.
#![tactic(auto)]

ghost use Rattle.std.specs.Prelude.{◌≡◌, List, ◌++◌, ℕ, ◌-◌, ◌≤◌, min, length, take, drop};
ghost use Rattle.rules.specs.Bytes.{same};
ghost use Rattle.rules.specs.Record.{replayed};
ghost use Rattle.rules.specs.Check.{stands, replays};
ghost use Rattle.replays.specs.Proposed.{proposed};

use sequences::equals;

// How many of a protein's residues stand before a number: all of them where it lies further on.
fn residues_before(residues: usize, number: usize) -> usize
    ensures { result ≡ min (number - 1) residues }
{
    number.saturating_sub(1).min(residues)
}

// Whether the deleted residues stand in R at a number, whatever is inserted.
fn stands_at(reference: &[u8], number: usize, deleted: &[u8]) -> bool
    ensures { (put : List ℕ) → result ≡ stands (proposed number deleted.now put) reference.now }
{
    let at = residues_before(reference.len(), number);
    let n = deleted.len();
    if reference.len() - at < n {
        return false;
    }
    equals(&reference[at..at + n], deleted)
}

// Whether A is R with `put` for the residues from `at` to `end`.
fn is_replaced(reference: &[u8], altered: &[u8], at: usize, end: usize, put: &[u8]) -> bool
    requires { (at ≤ length reference.now) × (end ≤ length reference.now) }
    ensures { result ≡ same (take at reference.now ++ (put.now ++ drop end reference.now)) altered.now }
{
    let n = put.len();
    if altered.len() < at {
        return false;
    }
    if altered.len() - at < n {
        return false;
    }
    let behind = at + n;
    let before = equals(&reference[..at], &altered[..at]);
    let there = equals(put, &altered[at..behind]);
    before & there & equals(&reference[end..], &altered[behind..])
}

// Whether R becomes A where the inserted residues replace those at a number, as many as are deleted.
fn gives(reference: &[u8], altered: &[u8], number: usize, deleted: &[u8], inserted: &[u8]) -> bool
    ensures { result ≡ same (replayed number deleted.now inserted.now reference.now) altered.now }
{
    let at = residues_before(reference.len(), number);
    let end = (at + deleted.len()).min(reference.len());
    is_replaced(reference, altered, at, end, inserted)
}

// Whether a proposal replays: the deleted residues stand in R at the number, and replacing them gives A.
pub fn replays_to(
    reference: &[u8],
    altered: &[u8],
    number: usize,
    deleted: &[u8],
    inserted: &[u8],
) -> bool
    ensures { result ≡ replays (proposed number deleted.now inserted.now) reference.now altered.now }
{
    let there = stands_at(reference, number, deleted);
    there & gives(reference, altered, number, deleted, inserted)
}
