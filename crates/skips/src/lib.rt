// The next codon in which two CDS differ.
#![tactic(auto)]

ghost use Rattle.std.specs.Prelude.{◌≡◌, ◌≤◌};
ghost use Rattle.alike.specs.Reading.{edition_of, Fits};
ghost use Rattle.skips.specs.Walks.{Reads, Passes, Skips};

use alike::{Edition, equal_codons};
use entries::{entry_of, residue_by};

// A codon from n on, at most `past`, before which all from n on are equal.
fn pass_equal(first: &[u8], r: Edition, second: &[u8], s: Edition, n: usize, past: usize) -> usize
    requires fits { Fits first.now r }
    requires fits_2 { Fits second.now s }
    requires le_n { (1 ≤ n) × (n ≤ past) }
    requires past_bound { past ≤ 65536 }
    ensures { Passes (edition_of first.now r) (edition_of second.now s) n past result }
{
    (n + equal_codons(first, r, second, s, n)).min(past)
}

// The first codon from n on, and before `past`, that has other letters or another residue; where none has, `past`.
// Forms and bounds are copied once: a whole edition, with room for 16 exceptions, would be for every codon.
pub fn next_difference(
    first: &[u8],
    r: Edition,
    a: &[u8; 4096],
    second: &[u8],
    s: Edition,
    b: &[u8; 4096],
    n: usize,
    past: usize,
) -> usize
    requires reads { Reads first.now r a.now }
    requires reads_2 { Reads second.now s b.now }
    requires le_n { (1 ≤ n) × (n ≤ past) }
    requires past_bound { past ≤ 65536 }
    ensures { Skips (edition_of first.now r) (edition_of second.now s) n past result }
{
    let f = r.form;
    let c = r.cds;
    let g = s.form;
    let d = s.cds;
    let mut m = n;
    // Kept: no for, since each turn finds where the next begins.
    while m < past {
        let p = entry_of(first, f, c, m);
        let q = entry_of(second, g, d, m);
        if p != q {
            return m;
        }
        if residue_by(a, r.e, p, m) != residue_by(b, s.e, q, m) {
            return m;
        }
        m = pass_equal(first, r, second, s, m + 1, past);
    }
    m
}
