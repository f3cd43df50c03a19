// 1 to 5: what is judged before a codon is read.
ghost use Rattle.std.specs.Prelude.{◌≡◌};
ghost use Rattle.rules.specs.Bytes.{all};
ghost use Rattle.rules.specs.Letters.{is_letter};
ghost use Rattle.rules.specs.Refusal.{limits};
ghost use Rattle.rules.specs.Refusals.{refusal_of};
ghost use Rattle.rules.specs.Views.{reference_of};
ghost use Rattle.reference.specs.Known.{early_refusal};
ghost use Rattle.parts.specs.Parts.{in_parts};

use reference::{are_bounds, fit_exceptions};
use rules::{Cds, Exceptions, LONGEST, Refusal};
use sequences::all_letters;
use translation::all_bases;

// Whether each letter is of the fifteen. Plain ones are, by a faster test.
fn are_letters(s: &[u8]) -> bool
    ensures { result ≡ all is_letter s.now }
{
    if all_bases(s) {
        return true;
    }
    all_letters(s)
}

// The lowest of 1 to 5 that applies.
pub(crate) fn early_refusal(
    a: &[u8],
    b: &[u8],
    c: &[u8],
    cds: Cds,
    e: Exceptions,
) -> Result<(), Refusal>
    ensures { refusal_of result ≡ early_refusal limits.longest (reference_of (in_parts a.now b.now c.now) cds e) }
{
    let size = a.len().saturating_add(b.len().saturating_add(c.len()));
    if (size < 1) | (LONGEST < size) {
        return Err(Refusal::Length);
    }
    if !(are_letters(a) & (are_letters(b) & are_letters(c))) {
        return Err(Refusal::Letter);
    }
    if !are_bounds(size, cds) {
        return Err(Refusal::Bounds);
    }
    if 2 < cds.table {
        return Err(Refusal::Table);
    }
    if !fit_exceptions(e, (cds.ce - (cds.cs - 1)) / 3) {
        return Err(Refusal::Exceptions);
    }
    Ok(())
}
