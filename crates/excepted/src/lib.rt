// Exceptions: which are taken, and the residues that they replace.
#![tactic(auto)]

ghost use Rattle.std.specs.Prelude.{◌≡◌, true, ◌&&◌, [], ◌∷◌, ◌++◌, leb, ◌≤◌, length, take, drop};
ghost use Rattle.rules.specs.Translation.{exception_list, excepted, is_residue, are_exceptions};
ghost use Rattle.excepted.specs.Exceptions.{excepted_from, nearer, next_from};

use letters::is_residue;
use rules::{Exception, Exceptions};

// Whether an exception can be taken, wherever its codon stands.
fn is_exception(x: Exception) -> bool
    ensures { result ≡ leb 1 x.codon && is_residue x.residue }
{
    (1 <= x.codon) & is_residue(x.residue)
}

// Whether plain translation takes the exceptions.
pub fn are_exceptions(e: Exceptions) -> bool
    ensures value { result ≡ are_exceptions (exception_list e) }
    ensures few { result ≡ true → e.count ≤ 16 }
{
    if 16 < e.count {
        return false;
    }
    for k in 0..e.count {
        if !is_exception(e.all[k]) {
            return false;
        }
    }
    true
}

// Puts an exception over the residue of its codon, unless it is numbered past the whole codons.
fn put_exception(x: Exception, whole: usize, out: &mut [u8])
    requires { whole ≤ length out.old }
    ensures { out.new ≡ excepted_from (x ∷ []) 1 (take whole out.old) ++ drop whole out.old }
{
    let codon = x.codon as usize;
    if (1 <= codon) & (codon <= whole) {
        out[codon - 1] = x.residue;
    }
}

// Puts the exceptions over the residues of the whole codons, in their order.
pub fn put_exceptions(e: Exceptions, whole: usize, out: &mut [u8])
    requires count_bound { e.count ≤ 16 }
    requires whole_in_bounds { whole ≤ length out.old }
    ensures { out.new ≡ excepted_from (exception_list e) 1 (take whole out.old) ++ drop whole out.old }
{
    for k in 0..e.count {
        put_exception(e.all[k], whole, out);
    }
}

// A codon's residue with one exception.
#[tactic(auto, unfolding(rules::specs::Translation::excepted))]
fn excepted_by(x: Exception, n: usize, r: u8) -> u8
    ensures { result ≡ excepted (x ∷ []) n r }
{
    if x.codon as usize == n { x.residue } else { r }
}

// The residue of codon n: r, unless an exception replaces it, the last one counting.
pub fn excepted_at(e: Exceptions, n: usize, r: u8) -> u8
    requires { e.count ≤ 16 }
    ensures { result ≡ excepted (exception_list e) n r }
{
    let mut y = r;
    for k in 0..e.count {
        y = excepted_by(e.all[k], n, y);
    }
    y
}

// The same with one exception more.
#[tactic(auto, unfolding(crate::specs::Exceptions::nearer))]
fn nearer_by(x: Exception, n: usize, next: usize) -> usize
    ensures { result ≡ nearer x n next }
{
    let codon = x.codon as usize;
    if (n <= codon) & (codon < next) {
        codon
    } else {
        next
    }
}

// The least number from n on, and below `past`, of a codon with an exception; with none, `past`.
pub fn next_exception(e: Exceptions, n: usize, past: usize) -> usize
    requires { e.count ≤ 16 }
    ensures { result ≡ next_from (exception_list e) n past }
{
    let mut next = past;
    for k in 0..e.count {
        next = nearer_by(e.all[k], n, next);
    }
    next
}
