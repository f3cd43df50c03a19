// What is decided of two edits of a checked reference: 7 to 10 of the first, then of the second, 51 to 53, or what each does. Nothing is written
// here.
#![tactic(auto)]

ghost use Rattle.std.specs.Prelude.{◌≡◌, ◌<◌};
ghost use Rattle.rules.specs.declared.Exceptions.{Exceptions};
ghost use Rattle.rules.specs.Packed.{letters_by};
ghost use Rattle.rules.specs.Refusals.{refusal_of, told};
ghost use Rattle.rules.specs.Views.{asked, reference_of};
ghost use Rattle.reference.specs.Known.{known_of, Checks};
ghost use Rattle.joints.specs.Joints.{Knowing, early_pair, joint_of};

use apart::are_apart;
use edits::plans::{Plan, plan_of};
use packed::size_of;
use positions::refusals::{edit_refusal, ends_after_transcript};
use reference::Known;
use rules::{Edit, Refusal};

// The two edits, and the most new bases of each. The new bases are lent beside them.
#[derive(Clone, Copy)]
pub struct Edits {
    pub first: Edit,
    pub most: usize,
    pub second: Edit,
    pub other: usize,
}

// What each of the two does.
#[derive(Clone, Copy)]
pub struct Joint {
    pub first: Plan,
    pub second: Plan,
}

// 7 to 10 of the first edit, then of the second, 51 and 52: all that is judged before it is worked out what an edit does.
fn early_refusal(
    letters: &[u8],
    known: Known,
    edits: Edits,
    new: &[u8],
    other: &[u8],
) -> Result<(), Refusal>
    requires { Checks (letters_by known.form letters.now) known }
    ensures { (e : Exceptions) → known ≡ known_of known.form (letters_by known.form letters.now) known.cds e → refusal_of result ≡ early_pair edits.most edits.other (reference_of (letters_by known.form letters.now) known.cds e) (asked edits.first new.now) (asked edits.second other.now) }
{
    let c = known.cds;
    let form = known.form;
    let one = edits.first;
    let two = edits.second;
    let len = size_of(letters, form);
    edit_refusal(len, c, edits.most, one, new)?;
    edit_refusal(len, c, edits.other, two, other)?;
    if !are_apart(len, c, one, two) {
        return Err(Refusal::Touching);
    }
    let past = ends_after_transcript(len, c, one) | ends_after_transcript(len, c, two);
    if known.several | past {
        return Err(Refusal::PairUnknown);
    }
    Ok(())
}

// What each of two edits does, where none of 7 to 10 and of 51 to 53 applies.
pub fn decide_pair(
    letters: &[u8],
    known: Known,
    edits: Edits,
    new: &[u8],
    other: &[u8],
) -> Result<Joint, Refusal>
    requires knowing { Knowing (letters_by known.form letters.now) known }
    requires most_bound { (edits.most < 4294967296) × (edits.other < 4294967296) }
    ensures { (e : Exceptions) → known ≡ known_of known.form (letters_by known.form letters.now) known.cds e → told result ≡ joint_of edits.most edits.other (reference_of (letters_by known.form letters.now) known.cds e) (asked edits.first new.now) (asked edits.second other.now) }
{
    early_refusal(letters, known, edits, new, other)?;
    let one = edits.first;
    let two = edits.second;
    let first = plan_of(letters, known, one, new);
    let second = plan_of(letters, known, two, other);
    if first.stopped | second.stopped {
        return Err(Refusal::PairStop);
    }
    Ok(Joint { first, second })
}
