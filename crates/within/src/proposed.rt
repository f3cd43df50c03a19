// A proposed record held to an edit.
ghost use Rattle.rules.specs.Longest.{check_within};
ghost use Rattle.rules.specs.Packed.{letters_by};
ghost use Rattle.rules.specs.Refusals.{told};
ghost use Rattle.rules.specs.Views.{asked, reference_of, room_of};
ghost use Rattle.proposals.specs.Proposed.{proposed};
ghost use Rattle.checks.specs.Checking.{CheckAnswers};

use crate::given_within;
use checks::{Proposed, check_altseq};
use rules::{Refusal, Verdict};

// A proposed record, and the longest edit of the call.
#[derive(Clone, Copy)]
pub struct Claim {
    pub proposed: Proposed,
    pub longest: usize,
}

pub fn check_within(
    letters: &[u8],
    claim: Claim,
    new: &[u8],
    deleted: &[u8],
    inserted: &[u8],
    transcript: &mut [u8],
    reference: &mut [u8],
    altered: &mut [u8],
) -> Result<Verdict, Refusal>
    ensures { CheckAnswers
        (check_within claim.longest (reference_of (letters_by claim.proposed.asks.form letters.now) claim.proposed.asks.cds claim.proposed.asks.e) (asked claim.proposed.asks.edit new.now) (proposed claim.proposed.number deleted.now inserted.now) (room_of transcript.old reference.old altered.old))
        (told result) transcript.old transcript.new reference.old reference.new altered.old altered.new }
{
    let proposed = claim.proposed;
    let given = given_within(claim.longest, proposed.asks.edit.kind, new)?;
    check_altseq(
        letters, proposed, given, deleted, inserted, transcript, reference, altered,
    )
}
