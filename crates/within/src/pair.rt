// Two edits of one reference, each with its longest edit; 62 if either is none.
ghost use Rattle.rules.specs.Pair.{Pairs};
ghost use Rattle.rules.specs.Longest.{pair_within};
ghost use Rattle.rules.specs.Packed.{letters_by};
ghost use Rattle.rules.specs.Refusals.{told};
ghost use Rattle.rules.specs.Views.{asked, reference_of};
ghost use Rattle.pairs.specs.Carrying.{pair_room_of};

use crate::given_within;
use pairs::{Question, pair_altseq};
use rules::{PairReport, Refusal};

pub fn pair_within(
    letters: &[u8],
    asks: Question,
    longest: usize,
    new: &[u8],
    second_longest: usize,
    other: &[u8],
    transcript: &mut [u8],
    altered: &mut [u8],
) -> Result<PairReport, Refusal>
    ensures { Pairs
        (pair_within longest second_longest (reference_of (letters_by asks.form letters.now) asks.cds asks.e) (asked asks.first new.now) (asked asks.second other.now) (pair_room_of transcript.old altered.old))
        (told result) transcript.old transcript.new altered.old altered.new }
{
    let given = given_within(longest, asks.first.kind, new)?;
    let second_given = given_within(second_longest, asks.second.kind, other)?;
    pair_altseq(letters, asks, given, second_given, transcript, altered)
}
