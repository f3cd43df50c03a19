// 6, by the last CDS codon alone, or 28, by a search for a stop.
ghost use Rattle.std.specs.Prelude.{◌≡◌, ◌<◌, eqb};
ghost use Rattle.rules.specs.Bytes.{byte, count};
ghost use Rattle.rules.specs.Reference.{at_stop, codons, ends_in_stop, is_cut_short, reference_protein};
ghost use Rattle.rules.specs.Refusals.{refusal_of};
ghost use Rattle.rules.specs.Views.{reference_of};
ghost use Rattle.letters.specs.Sets.{HoldsSets, folded_set};
ghost use Rattle.codons.specs.Tables.{HoldsCode};
ghost use Rattle.reference.specs.Known.{end_refusal, Readable};
ghost use Rattle.parts.specs.Parts.{in_parts, Passes};

use crate::pieces::stopless_at;
use crate::residues::residue_at;
use excepted::next_exception;
use letters::folded_sets;
use reference::is_short_end;
use rules::{Cds, Exceptions, Refusal};
use tables::residues_of;

// Whether the last CDS codon, exceptions applied, reads `*`.
fn ends_in_stop(a: &[u8], b: &[u8], c: &[u8], cds: Cds, e: Exceptions) -> bool
    requires { Readable (in_parts a.now b.now c.now) cds e }
    ensures { result ≡ ends_in_stop (reference_of (in_parts a.now b.now c.now) cds e) }
{
    let residues = residues_of(cds.table);
    let last = (cds.ce - (cds.cs - 1)) / 3 - 1;
    residue_at(a, b, c, cds, e, &residues, last) == b'*'
}

// Passes codons from codon k on that lie within one part, have no exception and read no `*`; answers the codon behind them.
fn pass_codons(
    a: &[u8],
    b: &[u8],
    c: &[u8],
    cds: Cds,
    e: Exceptions,
    sets: &[u8; 256],
    residues: &[u8; 4096],
    k: usize,
) -> usize
    requires readable { Readable (in_parts a.now b.now c.now) cds e }
    requires holds_sets { HoldsSets folded_set sets.now }
    requires holds_code { HoldsCode cds.table residues.now }
    requires k_bound { k < codons (reference_of (in_parts a.now b.now c.now) cds e) }
    ensures { Passes (reference_of (in_parts a.now b.now c.now) cds e) k result }
{
    let whole = (cds.ce - (cds.cs - 1)) / 3;
    let next = next_exception(e, k + 1, whole + 1);
    let at = cds.cs - 1 + k * 3;
    k + stopless_at(a, b, c, at, cds.table, sets, residues, next - 1 - k)
}

// Whether no whole codon of the CDS, exceptions applied, reads `*`: then R has none. Most codons are passed within their part; one that isn't
// has an exception, lies across two parts or reads `*`, or is the first of a part.
fn has_no_stop(a: &[u8], b: &[u8], c: &[u8], cds: Cds, e: Exceptions) -> bool
    requires { Readable (in_parts a.now b.now c.now) cds e }
    ensures { result ≡ eqb (count (byte "*") (reference_protein (reference_of (in_parts a.now b.now c.now) cds e))) 0 }
{
    let sets = folded_sets();
    let residues = residues_of(cds.table);
    let whole = (cds.ce - (cds.cs - 1)) / 3;
    let mut k = 0;
    // Kept: no for, since each turn finds where the next begins.
    while k < whole {
        let to = pass_codons(a, b, c, cds, e, &sets, &residues, k);
        if whole <= to {
            return true;
        }
        if residue_at(a, b, c, cds, e, &residues, to) == b'*' {
            return false;
        }
        k = to + 1;
    }
    true
}

// Whether the end is known, and not at a stop, ce is L and R has no `*`.
fn is_cut_short(a: &[u8], b: &[u8], c: &[u8], cds: Cds, e: Exceptions) -> bool
    requires { Readable (in_parts a.now b.now c.now) cds e }
    ensures { result ≡ is_cut_short (reference_of (in_parts a.now b.now c.now) cds e) }
{
    if !is_short_end(cds.end) | (cds.ce != a.len() + (b.len() + c.len())) {
        return false;
    }
    has_no_stop(a, b, c, cds, e)
}

// 6 for an end at a stop, 28 for another, where none of 1 to 5 applies.
pub(crate) fn end_refusal(
    a: &[u8],
    b: &[u8],
    c: &[u8],
    cds: Cds,
    e: Exceptions,
) -> Result<(), Refusal>
    requires { Readable (in_parts a.now b.now c.now) cds e }
    ensures { refusal_of result ≡ end_refusal (reference_of (in_parts a.now b.now c.now) cds e) }
{
    if cds.end == 0 {
        if ends_in_stop(a, b, c, cds, e) {
            return Ok(());
        }
        return Err(Refusal::LastCodon);
    }
    if is_cut_short(a, b, c, cds, e) {
        return Ok(());
    }
    Err(Refusal::End)
}
