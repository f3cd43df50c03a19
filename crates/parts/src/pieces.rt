// Codons that lie within one part: they are read where they stand, by the tables alone.
ghost use Rattle.std.specs.Prelude.{◌≡◌, true, ◌+◌, ◌*◌, ◌≤◌, length, drop};
ghost use Rattle.rules.specs.Bytes.{all};
ghost use Rattle.rules.specs.Letters.{is_letter};
ghost use Rattle.letters.specs.Sets.{HoldsSets, folded_set};
ghost use Rattle.codons.specs.Tables.{HoldsCode};
ghost use Rattle.places.specs.Places.{codon_at};
ghost use Rattle.parts.specs.Parts.{in_parts, Stopless};

use codons::tables::residue_in;
use letters::folded_set;

// The residue of codon i, counted from 0, of a part from place `at` on.
fn codon_from(
    part: &[u8],
    at: usize,
    table: usize,
    sets: &[u8; 256],
    residues: &[u8; 4096],
    i: usize,
) -> u8
    requires holds_sets { HoldsSets folded_set sets.now }
    requires holds_code { HoldsCode table residues.now }
    requires part_value { all is_letter part.now ≡ true }
    requires i_in_bounds { at + i * 3 + 3 ≤ length part.now }
    ensures { result ≡ codon_at table (drop at part.now) i }
{
    let k = at + i * 3;
    let first = folded_set(sets, part[k]);
    let second = folded_set(sets, part[k + 1]);
    let third = folded_set(sets, part[k + 2]);
    residue_in(table, residues, first, second, third)
}

// How many codons of a part from place `at` on, `most` at most, stand before the first that reads `*`.
fn stopless_from(
    part: &[u8],
    at: usize,
    table: usize,
    sets: &[u8; 256],
    residues: &[u8; 4096],
    most: usize,
) -> usize
    requires holds_sets { HoldsSets folded_set sets.now }
    requires holds_code { HoldsCode table residues.now }
    requires part_value { all is_letter part.now ≡ true }
    requires at_in_bounds { at ≤ length part.now }
    ensures stopless { Stopless table (drop at part.now) result }
    ensures few { result ≤ most }
{
    let n = most.min((part.len() - at) / 3);
    for i in 0..n {
        if codon_from(part, at, table, sets, residues, i) == b'*' {
            return i;
        }
    }
    n
}

// The same of the part that has place `at`.
pub(crate) fn stopless_at(
    a: &[u8],
    b: &[u8],
    c: &[u8],
    at: usize,
    table: usize,
    sets: &[u8; 256],
    residues: &[u8; 4096],
    most: usize,
) -> usize
    requires holds_sets { HoldsSets folded_set sets.now }
    requires holds_code { HoldsCode table residues.now }
    requires c_value { all is_letter (in_parts a.now b.now c.now) ≡ true }
    requires at_in_bounds { at ≤ length (in_parts a.now b.now c.now) }
    ensures stopless { Stopless table (drop at (in_parts a.now b.now c.now)) result }
    ensures few { result ≤ most }
{
    if at < a.len() {
        return stopless_from(a, at, table, sets, residues, most);
    }
    let past = at - a.len();
    if past < b.len() {
        return stopless_from(b, past, table, sets, residues, most);
    }
    let left = past - b.len();
    stopless_from(c, left, table, sets, residues, most)
}
