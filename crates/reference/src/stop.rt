// Refusal 6, by the last CDS codon alone, or 28, by a search for a stop, and so all of a reference's refusals without a buffer for R.
ghost use Rattle.std.specs.Prelude.{◌≡◌, ◌<◌};
ghost use Rattle.rules.specs.Bytes.{all};
ghost use Rattle.rules.specs.Reference.{at_stop, is_short_end, ends_in_stop, is_cut_short};
ghost use Rattle.rules.specs.Packed.{letters_by};
ghost use Rattle.rules.specs.Refusals.{refusal_of, told};
ghost use Rattle.rules.specs.Views.{reference_of};
ghost use Rattle.letters.specs.Sets.{is_base};
ghost use Rattle.reference.specs.Known.{end_refusal, judged_of, Readable};

use crate::early::early_refusal;
use codon_reader::read_codon;
use excepted::excepted_at;
use packed::{first_stop_by, set_at, size_of};
use rules::{Cds, Exceptions, Form, Refusal};

// Whether the last CDS codon, exceptions applied, reads `*`, where none of 1 to 5 applies and the CDS ends at a stop.
fn ends_in_stop(letters: &[u8], form: Form, c: Cds, e: Exceptions) -> bool
    requires readable { Readable (letters_by form letters.now) c e }
    requires end_value { c.end ≡ at_stop }
    ensures { result ≡ ends_in_stop (reference_of (letters_by form letters.now) c e) }
{
    let at = c.ce - 3;
    let first = set_at(letters, form, at);
    let second = set_at(letters, form, at + 1);
    let third = set_at(letters, form, at + 2);
    let residue = read_codon(c.table, first, second, third);
    excepted_at(e, (c.ce - (c.cs - 1)) / 3, residue) == b'*'
}

// Whether an end is known, and not at a stop.
#[tactic(auto, unfolding(rules::specs::Reference::is_short_end))]
pub fn is_short_end(end: usize) -> bool
    ensures { result ≡ is_short_end end }
{
    (end == 1) | (end == 2)
}

// Whether the end is known, and not at a stop, ce is L and R has no `*`, where none of 1 to 5 applies.
fn is_cut_short(letters: &[u8], form: Form, c: Cds, e: Exceptions, plain: bool) -> bool
    requires readable { Readable (letters_by form letters.now) c e }
    requires plain_value { plain ≡ all is_base (letters_by form letters.now) }
    ensures { result ≡ is_cut_short (reference_of (letters_by form letters.now) c e) }
{
    if !is_short_end(c.end) | (c.ce != size_of(letters, form)) {
        return false;
    }
    let first = c.cs - 1;
    let end = c.ce;
    first_stop_by(letters, form, first, end, c.table, plain, e) == (end - first) / 3
}

// 6 for an end at a stop, or 28 for another, where none of 1 to 5 applies.
fn end_refusal(
    letters: &[u8],
    form: Form,
    c: Cds,
    e: Exceptions,
    plain: bool,
) -> Result<(), Refusal>
    requires readable { Readable (letters_by form letters.now) c e }
    requires plain_value { plain ≡ all is_base (letters_by form letters.now) }
    ensures { refusal_of result ≡ end_refusal (reference_of (letters_by form letters.now) c e) }
{
    if c.end == 0 {
        if ends_in_stop(letters, form, c, e) {
            return Ok(());
        }
        return Err(Refusal::LastCodon);
    }
    if is_cut_short(letters, form, c, e, plain) {
        return Ok(());
    }
    Err(Refusal::End)
}

// The first of 1 to 5, 6 or 28 that applies, or whether the letters are plain.
pub fn judge_reference(
    letters: &[u8],
    form: Form,
    c: Cds,
    e: Exceptions,
    longest: usize,
) -> Result<bool, Refusal>
    requires { longest < 4294967296 }
    ensures { told result ≡ judged_of longest (letters_by form letters.now) c e }
{
    let plain = early_refusal(letters, form, c, e, longest)?;
    end_refusal(letters, form, c, e, plain)?;
    Ok(plain)
}
