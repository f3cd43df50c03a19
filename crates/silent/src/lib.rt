// Whether the protein that a plan makes is R, told before a byte of it is written.
#![tactic(auto)]

ghost use Rattle.std.specs.Prelude.{◌≡◌, ◌-◌, ◌/◌, ◌≤◌, ◌<◌, length, drop};
ghost use Rattle.rules.specs.Bytes.{same};
ghost use Rattle.rules.specs.Packed.{letters_by};
ghost use Rattle.rules.proofs.Reading.{rest_of};
ghost use Rattle.silent.specs.Comparing.{protein_with, Compares, Alike};

use altered::residue_at;
use blocks::{alike_codons, clear_codons, stretch_codons};
use edits::plans::Plan;
use rules::{Cds, Exceptions, Form};
use sources::{first_changed, source_of};

// Whether R has as many residues left behind its first k as a rest of bases makes: an X, or none.
fn rest_alike(protein: &[u8], k: usize, rest: usize) -> bool
    ensures { result ≡ same (drop k protein.now) (rest_of rest) }
{
    if rest == 0 {
        return protein.len() <= k;
    }
    if protein.len() <= k {
        return false;
    }
    (protein[k] == b'X') & (protein.len() - k == 1)
}

// What a plan makes, to be held to R: the bounds and the table, the exceptions of the reference and the moved ones, and the plan.
#[derive(Clone, Copy)]
struct Compared {
    c: Cds,
    e: Exceptions,
    moved: Exceptions,
    plan: Plan,
}

// How many codons from codon k on, and at most `most`, a block shows to read as R: codons without exceptions that lie in what goes in or behind
// it, before R's last residue and the last codon.
fn alike_from(
    letters: &[u8],
    form: Form,
    x: Compared,
    protein: &[u8],
    new: &[u8],
    k: usize,
    most: usize,
) -> usize
    requires compares { Compares (letters_by form letters.now) x.c x.e x.moved protein.now x.plan new.now }
    requires k_bound { (k < (x.plan.length - (x.c.cs - 1)) / 3) × (k < length protein.now) }
    requires most_bound { most ≤ 256 }
    ensures { Alike x.c x.moved x.plan (letters_by form letters.now) new.now protein.now k result }
{
    let c = x.c;
    let plan = x.plan;
    let first = c.cs - 1;
    let at = first + k * 3;
    let whole = (plan.length - first) / 3;
    let left = whole.min(protein.len()) - 1 - k;
    let size = stretch_codons(plan, at, most.min(left));
    if size == 0 {
        return 0;
    }
    let n = clear_codons(x.e, x.moved, k, size);
    let end = k + n;
    alike_codons(letters, form, c.table, plan, new, at, &protein[k..end])
}

// Whether the protein that a plan makes, with the moved exceptions, is R: read from the first codon that the edit may change, to where the two
// part or end, or to where the codons are the reference's again: then A is R exactly if they stand where they stood. Behind the first four
// codons each turn skips a block of up to four times as many as were read before, and reads one by itself.
pub fn keeps_protein(
    letters: &[u8],
    form: Form,
    c: Cds,
    e: Exceptions,
    moved: Exceptions,
    protein: &[u8],
    plan: Plan,
    new: &[u8],
) -> bool
    requires { Compares (letters_by form letters.now) c e moved protein.now plan new.now }
    ensures { result ≡ same protein.now (protein_with c moved plan (letters_by form letters.now) new.now) }
{
    let first = c.cs - 1;
    let whole = (plan.length - first) / 3;
    let rest = (plan.length - first) % 3;
    let start = first_changed(plan, first, protein.len());
    let x = Compared { c, e, moved, plan };
    let mut k = start;
    // Kept: no for, since each turn finds how far it goes.
    loop {
        if whole <= k {
            return rest_alike(protein, k, rest);
        }
        if protein.len() <= k {
            return false;
        }
        if let Some(source) = source_of(plan, first, e.count, protein.len(), k) {
            return source == k;
        }
        let most = ((k - start) / 4 * 16).min(256);
        let j = k + alike_from(letters, form, x, protein, new, k, most);
        let r = residue_at(letters, form, c.table, plan, new, moved, first, j);
        if r != protein[j] {
            return false;
        }
        if r == b'*' {
            return j + 1 == protein.len();
        }
        k = j + 1;
    }
}
