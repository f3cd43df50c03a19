// The altered transcript alone.
ghost use Rattle.std.specs.Prelude.{◌≡◌, ◌<◌, length};
ghost use Rattle.rules.specs.Bytes.{over};
ghost use Rattle.rules.specs.Refusals.{told};
ghost use Rattle.rules.specs.Refusal.{limits};
ghost use Rattle.rules.specs.Packed.{letters_by};
ghost use Rattle.rules.specs.Views.{asked, reference_of};
ghost use Rattle.reference.specs.Known.{HasRoom};
ghost use Rattle.altseq.specs.Transcribing.{edited};

use edits::decision::decide;
use packed::size_of;
use reference::check_reference;
use rules::{LONGEST, LONGEST_PROTEIN, MOST, Question, Refusal, SHORT, SHORT_PROTEIN};
use transcript::write_transcript;

// How many bases were written, and the frameshift flag.
#[derive(Clone, Copy)]
pub struct Transcribed {
    pub length: usize,
    pub frameshift: bool,
}

// The altered transcript of an edit of a reference, with room for R.
fn transcribe_in(
    letters: &[u8],
    asks: Question,
    new: &[u8],
    protein: &mut [u8],
    transcript: &mut [u8],
) -> Result<Option<Transcribed>, Refusal>
    requires { HasRoom limits.longest (letters_by asks.form letters.now) (length protein.old) }
    ensures value { told result ≡ (edited limits (reference_of (letters_by asks.form letters.now) asks.cds asks.e) (asked asks.edit new.now) (length transcript.old)).answer }
    ensures transcript_after { transcript.new ≡ over (edited limits (reference_of (letters_by asks.form letters.now) asks.cds asks.e) (asked asks.edit new.now) (length transcript.old)).transcript transcript.old }
{
    let form = asks.form;
    let known = check_reference(letters, form, asks.cds, asks.e, LONGEST, protein)?;
    let Some(plan) = decide(letters, known, MOST, asks.edit, new)? else {
        return Ok(None);
    };
    if transcript.len() < plan.length {
        return Err(Refusal::TranscriptRoom);
    }
    let length = write_transcript(letters, form, plan, new, transcript);
    Ok(Some(Transcribed {
        length,
        frameshift: plan.shift,
    }))
}

// The same, with as much room for R as the reference wants: the room lies in a function of its own, so that a short reference doesn't pay for
// clearing the room of a long one.
fn transcribe_with_room<const ROOM: usize>(
    letters: &[u8],
    asks: Question,
    new: &[u8],
    transcript: &mut [u8],
) -> Result<Option<Transcribed>, Refusal>
    requires room { HasRoom limits.longest (letters_by asks.form letters.now) ROOM }
    requires room_bound { ROOM < 65536 }
    ensures value { told result ≡ (edited limits (reference_of (letters_by asks.form letters.now) asks.cds asks.e) (asked asks.edit new.now) (length transcript.old)).answer }
    ensures transcript_after { transcript.new ≡ over (edited limits (reference_of (letters_by asks.form letters.now) asks.cds asks.e) (asked asks.edit new.now) (length transcript.old)).transcript transcript.old }
{
    let mut protein = [0u8; ROOM];
    transcribe_in(letters, asks, new, &mut protein, transcript)
}

// The altered transcript of an edit of a reference: refusals 1 to 11, None for Unknown, or what the buffer holds.
#[tactic(auto, unfolding(rules::specs::Translation::residue_count))]
pub fn build_transcript(
    letters: &[u8],
    asks: Question,
    new: &[u8],
    transcript: &mut [u8],
) -> Result<Option<Transcribed>, Refusal>
    ensures value { told result ≡ (edited limits (reference_of (letters_by asks.form letters.now) asks.cds asks.e) (asked asks.edit new.now) (length transcript.old)).answer }
    ensures transcript_after { transcript.new ≡ over (edited limits (reference_of (letters_by asks.form letters.now) asks.cds asks.e) (asked asks.edit new.now) (length transcript.old)).transcript transcript.old }
{
    if SHORT < size_of(letters, asks.form) {
        return transcribe_with_room::<LONGEST_PROTEIN>(letters, asks, new, transcript);
    }
    transcribe_with_room::<SHORT_PROTEIN>(letters, asks, new, transcript)
}
