// What is known of a reference, without a buffer for R: whether R has more than one stop is told by its first.
#![tactic(auto)]

ghost use Rattle.std.specs.Prelude.{◌≡◌, ◌<◌, ltb};
ghost use Rattle.rules.specs.Bytes.{byte, all, count};
ghost use Rattle.rules.specs.Reference.{reference_protein};
ghost use Rattle.rules.specs.Packed.{letters_by};
ghost use Rattle.rules.specs.Refusals.{told};
ghost use Rattle.rules.specs.Views.{reference_of};
ghost use Rattle.rules.proofs.Reference.{ReferenceProtein};
ghost use Rattle.letters.specs.Sets.{is_base};
ghost use Rattle.reference.specs.Known.{checked_of, Readable};

use numbers::thirds;
use packed::first_stop_by;
use reference::{Known, judge_reference};
use rules::{Cds, Exceptions, Form, Refusal};

// Whether R has more than one `*`, of a reference that isn't refused: the first isn't the last codon.
fn stops_early(letters: &[u8], form: Form, c: Cds, e: Exceptions, plain: bool) -> bool
    requires readable { Readable (letters_by form letters.now) c e }
    requires plain_value { plain ≡ all is_base (letters_by form letters.now) }
    requires reference_protein { ReferenceProtein (reference_of (letters_by form letters.now) c e) }
    ensures { result ≡ ltb 1 (count (byte "*") (reference_protein (reference_of (letters_by form letters.now) c e))) }
{
    if c.end != 0 {
        return false;
    }
    let first = c.cs - 1;
    let end = c.ce;
    let stop = first_stop_by(letters, form, first, end, c.table, plain, e);
    stop + 1 < (end - first) / 3
}

// 1 to 5, 6 or 28, or what is known of the reference from then on.
pub fn know_reference(
    letters: &[u8],
    form: Form,
    cds: Cds,
    e: Exceptions,
    longest: usize,
) -> Result<Known, Refusal>
    requires { longest < 4294967296 }
    ensures { told result ≡ checked_of longest form (letters_by form letters.now) cds e }
{
    let plain = judge_reference(letters, form, cds, e, longest)?;
    Ok(Known {
        form,
        cds,
        residues: thirds(cds.ce - (cds.cs - 1)),
        plain,
        several: stops_early(letters, form, cds, e, plain),
    })
}
