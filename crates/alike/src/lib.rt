// Codons that are equal in both, many at a time: by their letters alone, where equal letters are read alike.
#![tactic(auto)]

ghost use Rattle.std.specs.Prelude.{◌≡◌, true, ◌≤◌};
ghost use Rattle.rules.specs.declared.Form.TheVariants.{Bytes};
ghost use Rattle.alike.specs.Reading.{edition_of, Fits, Alike, AreEqual};

use packed::prefix_by;
use rules::{Cds, Exceptions, Form};

// The form of a reference's letters, its bounds, table, end and exceptions. The letters are lent beside them.
#[derive(Clone, Copy)]
pub struct Edition {
    pub form: Form,
    pub cds: Cds,
    pub e: Exceptions,
}

// Whether a letter is a byte.
fn is_bytes(form: Form) -> bool
    ensures { result ≡ true → form ≡ Bytes }
{
    matches!(form, Form::Bytes)
}

// Whether letters are bytes in both, and equal ones are read alike: with one table, and no exception.
fn are_alike(r: Edition, s: Edition) -> bool
    ensures { result ≡ true → Alike r s }
{
    let f = r.form;
    let g = s.form;
    is_bytes(f) & is_bytes(g) & (r.cds.table == s.cds.table) & (r.e.count == 0) & (s.e.count == 0)
}

// How many codons from n on have equal letters, and so equal residues; 0 where that isn't known.
pub fn equal_codons(first: &[u8], r: Edition, second: &[u8], s: Edition, n: usize) -> usize
    requires fits { Fits first.now r }
    requires fits_2 { Fits second.now s }
    requires le_n { (1 ≤ n) × (n ≤ 65536) }
    ensures are_equal { AreEqual (edition_of first.now r) (edition_of second.now s) n result }
    ensures few { result ≤ 65536 }
{
    if !are_alike(r, s) {
        return 0;
    }
    let c = r.cds;
    let d = s.cds;
    let k = (n - 1) * 3;
    if c.ce - (c.cs - 1) <= k {
        return 0;
    }
    if d.ce - (d.cs - 1) <= k {
        return 0;
    }
    let start = c.cs - 1 + k;
    let end = c.ce;
    let other = d.cs - 1 + k;
    let last = d.ce;
    prefix_by(first, Form::Bytes, start, end, &second[other..last]) / 3
}
