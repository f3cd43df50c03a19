// What is decided of an edit of a checked reference: 7 to 10, Unknown, or what the edit does. Nothing is written here.
ghost use Rattle.std.specs.Prelude.{◌≡◌, ◌<◌};
ghost use Rattle.rules.specs.Packed.{letters_by};
ghost use Rattle.rules.specs.Refusals.{told};
ghost use Rattle.rules.specs.Views.{bare, asked};
ghost use Rattle.reference.specs.Known.{Checks};
ghost use Rattle.edits.specs.Decisions.{decision_of};

use crate::plans::{Plan, plan_of};
use packed::size_of;
use positions::refusals::{edit_refusal, ends_after_transcript};
use reference::Known;
use rules::{Edit, Refusal};

// None where the edit is Unknown. `most` is the most new bases.
pub fn decide(
    letters: &[u8],
    known: Known,
    most: usize,
    edit: Edit,
    new: &[u8],
) -> Result<Option<Plan>, Refusal>
    requires checks { Checks (letters_by known.form letters.now) known }
    requires most_bound { most < 4294967296 }
    ensures { told result ≡ decision_of most known.several (bare (letters_by known.form letters.now) known.cds) (asked edit new.now) }
{
    let c = known.cds;
    let form = known.form;
    let size = size_of(letters, form);
    edit_refusal(size, c, most, edit, new)?;
    if known.several | ends_after_transcript(size, c, edit) {
        return Ok(None);
    }
    Ok(Some(plan_of(letters, known, edit, new)))
}
