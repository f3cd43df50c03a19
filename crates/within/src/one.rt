// One edit of a reference.
ghost use Rattle.std.specs.Prelude.{◌≡◌, length};
ghost use Rattle.rules.specs.Bytes.{over};
ghost use Rattle.rules.specs.Answer.{Answers};
ghost use Rattle.rules.specs.Longest.{outcome_within};
ghost use Rattle.rules.specs.Panel.{panel_within};
ghost use Rattle.rules.specs.Packed.{letters_by};
ghost use Rattle.rules.specs.Refusals.{told};
ghost use Rattle.rules.specs.Views.{asked, reference_of, room_of};
ghost use Rattle.within.specs.Edited.{edited_within};

use crate::given_within;
use altseq::{Transcribed, build_altseq, build_transcript};
use panel::build_panel;
use rules::{Question, Refusal, Report};

// The altered transcript alone.
pub fn transcript_within(
    letters: &[u8],
    asks: Question,
    longest: usize,
    new: &[u8],
    transcript: &mut [u8],
) -> Result<Option<Transcribed>, Refusal>
    ensures answer { told result ≡ (edited_within longest (reference_of (letters_by asks.form letters.now) asks.cds asks.e) (asked asks.edit new.now) (length transcript.old)).answer }
    ensures transcript_after { transcript.new ≡ over (edited_within longest (reference_of (letters_by asks.form letters.now) asks.cds asks.e) (asked asks.edit new.now) (length transcript.old)).transcript transcript.old }
{
    let given = given_within(longest, asks.edit.kind, new)?;
    build_transcript(letters, asks, given, transcript)
}

// The whole answer.
pub fn record_within(
    letters: &[u8],
    asks: Question,
    longest: usize,
    new: &[u8],
    transcript: &mut [u8],
    reference: &mut [u8],
    altered: &mut [u8],
) -> Result<Report, Refusal>
    ensures { Answers
        (outcome_within longest (reference_of (letters_by asks.form letters.now) asks.cds asks.e) (asked asks.edit new.now) (room_of transcript.old reference.old altered.old))
        (told result) transcript.old transcript.new reference.old reference.new altered.old altered.new }
{
    let given = given_within(longest, asks.edit.kind, new)?;
    build_altseq(letters, asks, given, transcript, reference, altered)
}

// The whole answer under the panel profile.
pub fn panel_within(
    letters: &[u8],
    asks: Question,
    named: usize,
    longest: usize,
    new: &[u8],
    transcript: &mut [u8],
    reference: &mut [u8],
    altered: &mut [u8],
) -> Result<Report, Refusal>
    ensures { Answers
        (panel_within longest (reference_of (letters_by asks.form letters.now) asks.cds asks.e) (asked asks.edit new.now) named (room_of transcript.old reference.old altered.old))
        (told result) transcript.old transcript.new reference.old reference.new altered.old altered.new }
{
    let given = given_within(longest, asks.edit.kind, new)?;
    build_panel(letters, asks, named, given, transcript, reference, altered)
}
