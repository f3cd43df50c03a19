// Letters and residues by their places.
ghost use Rattle.std.specs.Prelude.{◌≡◌, true, ◌<◌, length, get_or};
ghost use Rattle.rules.specs.Bytes.{all};
ghost use Rattle.rules.specs.Letters.{letter_set, is_letter};
ghost use Rattle.rules.specs.Reference.{codons, reference_protein};
ghost use Rattle.rules.specs.Views.{reference_of};
ghost use Rattle.codons.specs.Tables.{HoldsCode};
ghost use Rattle.reference.specs.Known.{Readable};
ghost use Rattle.parts.specs.Parts.{in_parts};

use codons::tables::residue_in;
use excepted::excepted_at;
use letters::letter_set;
use rules::{Cds, Exceptions};

fn letter_at(a: &[u8], b: &[u8], c: &[u8], i: usize) -> u8
    requires { i < length (in_parts a.now b.now c.now) }
    ensures { result ≡ get_or (in_parts a.now b.now c.now) i 0 }
{
    if i < a.len() {
        return a[i];
    }
    let past = i - a.len();
    if past < b.len() {
        return b[past];
    }
    let last = past - b.len();
    c[last]
}

// The set of a letter.
fn set_at(a: &[u8], b: &[u8], c: &[u8], i: usize) -> usize
    requires i_in_bounds { i < length (in_parts a.now b.now c.now) }
    requires c_value { all is_letter (in_parts a.now b.now c.now) ≡ true }
    ensures value { result ≡ letter_set (get_or (in_parts a.now b.now c.now) i 0) }
    ensures some { (0 < result) × (result < 16) }
{
    letter_set(letter_at(a, b, c, i))
}

// A residue of R by its codon, counted from 0, where none of 1 to 5 applies.
pub(crate) fn residue_at(
    a: &[u8],
    b: &[u8],
    c: &[u8],
    cds: Cds,
    e: Exceptions,
    residues: &[u8; 4096],
    k: usize,
) -> u8
    requires readable { Readable (in_parts a.now b.now c.now) cds e }
    requires holds_code { HoldsCode cds.table residues.now }
    requires k_bound { k < codons (reference_of (in_parts a.now b.now c.now) cds e) }
    ensures { result ≡ get_or (reference_protein (reference_of (in_parts a.now b.now c.now) cds e)) k 0 }
{
    let at = cds.cs - 1 + k * 3;
    let first = set_at(a, b, c, at);
    let second = set_at(a, b, c, at + 1);
    let third = set_at(a, b, c, at + 2);
    let residue = residue_in(cds.table, residues, first, second, third);
    excepted_at(e, k + 1, residue)
}
