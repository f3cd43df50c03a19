// Two edits of one reference, answered whole: each is decided by itself, they must lie apart, and then the transcript of both is written in five
// parts, each taken from the reference by its own indices, and its protein read without exceptions.
#![tactic(auto)]

mod carry;

ghost use Rattle.std.specs.Prelude.{◌≡◌, ℕ};
ghost use Rattle.rules.specs.declared.Exceptions.{Exceptions};
ghost use Rattle.rules.specs.Pair.{pair_limits, pair_outcome, Pairs};
ghost use Rattle.rules.specs.Refusal.{reference_refusal};
ghost use Rattle.rules.specs.Refusals.{told};
ghost use Rattle.rules.specs.Packed.{letters_by};
ghost use Rattle.rules.specs.Views.{asked, reference_of};
ghost use Rattle.reference.specs.Known.{known_of};
ghost use Rattle.pairs.specs.Carrying.{pair_room_of, AcceptsPair};

use carry::carry_pair;
use joints::{Edits, decide_pair};
use known::know_reference;
use reference::Known;
use rules::{Cds, Edit, Exceptions, Form, LONGEST, MOST, PairReport, Refusal};

// What is asked of a reference: its letters' form, its numbers and its exceptions, and two edits. The letters and the new bases are lent beside them.
#[derive(Clone, Copy)]
pub struct Question {
    pub form: Form,
    pub cds: Cds,
    pub e: Exceptions,
    pub first: Edit,
    pub second: Edit,
}

// The answer to two edits of a checked reference: the refusals behind 6 and 28, or what the two buffers hold.
fn answer_pair(
    letters: &[u8],
    known: Known,
    edits: Edits,
    new: &[u8],
    other: &[u8],
    transcript: &mut [u8],
    altered: &mut [u8],
) -> Result<PairReport, Refusal>
    requires { AcceptsPair (letters_by known.form letters.now) known edits.most edits.other }
    ensures { (longest : ℕ) (e : Exceptions) → known ≡ known_of known.form (letters_by known.form letters.now) known.cds e → reference_refusal longest (reference_of (letters_by known.form letters.now) known.cds e) ≡ 0 → Pairs
        (pair_outcome (record { longest = longest; first = edits.most; second = edits.other }) (reference_of (letters_by known.form letters.now) known.cds e) (asked edits.first new.now) (asked edits.second other.now) (pair_room_of transcript.old altered.old))
        (told result) transcript.old transcript.new altered.old altered.new }
{
    let joint = decide_pair(letters, known, edits, new, other)?;
    carry_pair(
        letters,
        known,
        joint.first,
        new,
        joint.second,
        other,
        transcript,
        altered,
    )
}

// The answer to two edits of a reference: 1 to 5, 6 or 28, the first's 7 to 10, then the second's, 51 to 53, 11, 12, or how much of the transcript of
// both and of its protein the two buffers hold.
pub fn pair_altseq(
    letters: &[u8],
    asks: Question,
    new: &[u8],
    other: &[u8],
    transcript: &mut [u8],
    altered: &mut [u8],
) -> Result<PairReport, Refusal>
    ensures { Pairs
        (pair_outcome pair_limits (reference_of (letters_by asks.form letters.now) asks.cds asks.e) (asked asks.first new.now) (asked asks.second other.now) (pair_room_of transcript.old altered.old))
        (told result) transcript.old transcript.new altered.old altered.new }
{
    let known = know_reference(letters, asks.form, asks.cds, asks.e, LONGEST)?;
    let edits = Edits {
        first: asks.first,
        most: MOST,
        second: asks.second,
        other: MOST,
    };
    answer_pair(letters, known, edits, new, other, transcript, altered)
}
