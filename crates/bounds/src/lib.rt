// Refusals 3 and 5 of a reference, by its numbers alone: its bounds and its exceptions.
#![tactic(auto)]

ghost use Rattle.std.specs.Prelude.{◌≡◌, ◌&&◌, List, ℕ, leb, length};
ghost use Rattle.rules.specs.Translation.{exception_list};
ghost use Rattle.rules.specs.Reference.{fits_end, are_bounds, are_rising};
ghost use Rattle.rules.specs.Views.{bare};
ghost use Rattle.bounds.specs.Exceptions.{is_exception};

use letters::is_residue;
use rules::{Cds, Exception, Exceptions};

// Divisible by 3; for a cut codon not.
#[tactic(auto, unfolding(rules::specs::Reference::fits_end))]
fn fits_end(end: usize, n: usize) -> bool
    ensures { result ≡ fits_end end n }
{
    if end == 2 { n % 3 != 0 } else { n % 3 == 0 }
}

// 1 <= cs <= ce <= L, which is `size`; ce-cs+1 fits the end and is at least 6.
pub fn are_bounds(size: usize, c: Cds) -> bool
    ensures { (s : List ℕ) → length s ≡ size → result ≡ are_bounds (bare s c) }
{
    if (c.cs < 1) | (c.ce < c.cs) | (size < c.ce) {
        return false;
    }
    let coding = c.ce - (c.cs - 1);
    fits_end(c.end, coding) & (6 <= coding)
}

// A codon number above `last` and at most `most`, and a residue A to Z or `*`.
fn is_exception(x: Exception, last: usize, most: usize) -> bool
    ensures { result ≡ is_exception last most x }
{
    let codon = x.codon as usize;
    (last < codon) & (codon <= most) & is_residue(x.residue)
}

// At most 16, strictly rising, of `most` codons.
pub fn fit_exceptions(e: Exceptions, most: usize) -> bool
    ensures { result ≡ (leb (length (exception_list e)) 16 && are_rising 0 most (exception_list e)) }
{
    if 16 < e.count {
        return false;
    }
    let given = &e.all[..e.count];
    let mut last = 0;
    for x in given {
        if !is_exception(*x, last, most) {
            return false;
        }
        last = x.codon as usize;
    }
    true
}
