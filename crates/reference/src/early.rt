// Refusals 1 to 5: what is judged of a reference before a codon is read.
ghost use Rattle.std.specs.Prelude.{◌≡◌, ◌<◌, length};
ghost use Rattle.rules.specs.Bytes.{all};
ghost use Rattle.rules.specs.Letters.{is_letter};
ghost use Rattle.rules.specs.Packed.{letters_by};
ghost use Rattle.rules.specs.Refusals.{told};
ghost use Rattle.letters.specs.Sets.{is_base};
ghost use Rattle.reference.specs.Known.{early_of};

use bounds::{are_bounds, fit_exceptions};
use packed::{all_bases_by, all_letters_by, size_of};
use rules::{Cds, Exceptions, Form, Refusal};

// Whether each letter is of the fifteen. Plain ones are, and needn't be looked at again.
fn are_letters(letters: &[u8], form: Form, plain: bool) -> bool
    requires nonzero { 0 < length (letters_by form letters.now) }
    requires plain_value { plain ≡ all is_base (letters_by form letters.now) }
    ensures { result ≡ all is_letter (letters_by form letters.now) }
{
    plain || all_letters_by(letters, form)
}

// The lowest of 1 to 5 that applies, or whether the letters are plain.
#[tactic(auto, using(crate::proofs::Testing::early_by), unfolding(crate::specs::Known::early_of, rules::specs::Bytes::unless))]
pub(crate) fn early_refusal(
    letters: &[u8],
    form: Form,
    c: Cds,
    e: Exceptions,
    longest: usize,
) -> Result<bool, Refusal>
    ensures { told result ≡ early_of longest (letters_by form letters.now) c e }
{
    let size = size_of(letters, form);
    if (size < 1) | (longest < size) {
        return Err(Refusal::Length);
    }
    let plain = all_bases_by(letters, form);
    if !are_letters(letters, form, plain) {
        return Err(Refusal::Letter);
    }
    if !are_bounds(size, c) {
        return Err(Refusal::Bounds);
    }
    if 2 < c.table {
        return Err(Refusal::Table);
    }
    if !fit_exceptions(e, (c.ce - (c.cs - 1)) / 3) {
        return Err(Refusal::Exceptions);
    }
    Ok(plain)
}
