// "Write the stored reference": a reference into a lent buffer, in the stored form, which has packed letters a byte each too.
#![tactic(auto)]

mod fields_of;
mod form;

ghost use Rattle.std.specs.Prelude.{◌≡◌, length};
ghost use Rattle.rules.specs.Bytes.{over};
ghost use Rattle.rules.specs.Packed.{letters_by};
ghost use Rattle.rules.specs.Refusal.{limits};
ghost use Rattle.rules.specs.Refusals.{told};
ghost use Rattle.rules.specs.Storing.{written_reference};
ghost use Rattle.rules.specs.Answer.{written_of, bytes_of};
ghost use Rattle.rules.specs.Views.{reference_of};

use form::write_form;
use packed::size_of;
use reference::judge_reference;
use rules::{Cds, Exceptions, Form, LONGEST, Refusal};
use storing_length::form_length;

// 1 to 5, 6 or 28, then 24, or the form from the buffer's start. The length of the whole form is known before its first byte is written.
pub fn write_stored(
    letters: &[u8],
    form: Form,
    cds: Cds,
    e: Exceptions,
    out: &mut [u8],
) -> Result<usize, Refusal>
    ensures value { told result ≡ written_of (written_reference limits.longest (reference_of (letters_by form letters.now) cds e) (length out.old)) }
    ensures out_after { out.new ≡ over (bytes_of (written_reference limits.longest (reference_of (letters_by form letters.now) cds e) (length out.old))) out.old }
{
    judge_reference(letters, form, cds, e, LONGEST)?;
    if out.len() < form_length(size_of(letters, form), e.count, cds.end) {
        return Err(Refusal::StoredRoom);
    }
    Ok(write_form(letters, form, cds, e, out))
}
