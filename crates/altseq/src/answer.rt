// "Refusal numbers": what an edit of a reference is answered, and what is written to the three buffers.
ghost use Rattle.std.specs.Prelude.{◌≡◌, ◌<◌, length};
ghost use Rattle.rules.specs.Refusals.{told};
ghost use Rattle.rules.specs.Refusal.{limits};
ghost use Rattle.rules.specs.Answer.{unknown_report, outcome, Answers};
ghost use Rattle.rules.specs.Packed.{letters_by};
ghost use Rattle.rules.specs.Views.{bare, asked, reference_of, room_of};
ghost use Rattle.reference.specs.Known.{HasRoom, Knows};
ghost use Rattle.altseq.specs.Decided.{decided_in, Accepts, AnswersBeside};

use crate::carry::carry_out;
use edits::decision::decide;
use edits::plans::{Plan, room_refusal};
use packed::size_of;
use reference::{Known, check_reference};
use rules::{
    Edit, Exceptions, LONGEST, LONGEST_PROTEIN, MOST, Question, Record, Refusal, Report, SHORT,
    SHORT_PROTEIN, SMALL, SMALL_PROTEIN,
};

// Zero lengths, no flag, and no codon looked up.
#[tactic(auto, unfolding(rules::specs::Answer::unknown_report))]
fn unknown_report() -> Report
    ensures { result ≡ unknown_report }
{
    Report {
        found: Record::Unknown,
        frameshift: false,
        transcript: 0,
        reference: 0,
        altered: 0,
        codons: 0,
    }
}

// What is decided of an edit of a checked reference where the three buffers have so much room: refusals 7 to 12, None for Unknown, or what the
// edit does.
pub fn decide_in(
    letters: &[u8],
    known: Known,
    edit: Edit,
    new: &[u8],
    transcript: usize,
    reference: usize,
    altered: usize,
) -> Result<Option<Plan>, Refusal>
    requires { Accepts (letters_by known.form letters.now) known }
    ensures { told result ≡ decided_in known.several (bare (letters_by known.form letters.now) known.cds) (asked edit new.now) (record { transcript = transcript; reference = reference; altered = altered }) }
{
    let Some(plan) = decide(letters, known, MOST, edit, new)? else {
        return Ok(None);
    };
    room_refusal(known.cds, plan.length, transcript, reference, altered)?;
    Ok(Some(plan))
}

// An edit of a reference that was checked: what is known of it, its exceptions, and the edit. The letters, R and the new bases are lent beside
// them.
#[derive(Clone, Copy)]
pub struct Ready {
    pub known: Known,
    pub e: Exceptions,
    pub edit: Edit,
}

// The answer to an edit of a checked reference where R has so much room: refusals 7 to 12, Unknown, or a report of what two buffers hold. R
// stays where it is.
fn answer_beside(
    letters: &[u8],
    ready: Ready,
    protein: &[u8],
    new: &[u8],
    transcript: &mut [u8],
    reference: usize,
    altered: &mut [u8],
) -> Result<Report, Refusal>
    requires { Knows limits (letters_by ready.known.form letters.now) ready.known ready.e protein.now }
    ensures { AnswersBeside
        (outcome limits (reference_of (letters_by ready.known.form letters.now) ready.known.cds ready.e) (asked ready.edit new.now) (record { transcript = length transcript.entry.now; reference = reference; altered = length altered.old }))
        (told result) protein.now reference transcript.entry.now transcript.exit.now altered.old altered.new }
{
    let known = ready.known;
    let room = transcript.len();
    let Some(plan) = decide_in(
        letters,
        known,
        ready.edit,
        new,
        room,
        reference,
        altered.len(),
    )?
    else {
        return Ok(unknown_report());
    };
    Ok(carry_out(
        letters, known, ready.e, protein, plan, new, transcript, altered,
    ))
}

// The answer to an edit of a checked reference: refusals 7 to 12, Unknown, or a report of what the three buffers hold.
pub fn answer_known(
    letters: &[u8],
    ready: Ready,
    protein: &[u8],
    new: &[u8],
    transcript: &mut [u8],
    reference: &mut [u8],
    altered: &mut [u8],
) -> Result<Report, Refusal>
    requires { Knows limits (letters_by ready.known.form letters.now) ready.known ready.e protein.now }
    ensures { Answers
        (outcome limits (reference_of (letters_by ready.known.form letters.now) ready.known.cds ready.e) (asked ready.edit new.now) (room_of transcript.old reference.old altered.old))
        (told result) transcript.old transcript.new reference.old reference.new altered.old altered.new }
{
    let report = answer_beside(
        letters,
        ready,
        protein,
        new,
        transcript,
        reference.len(),
        altered,
    )?;
    bytewise::copy(&protein[..report.reference], reference);
    Ok(report)
}

// The answer to an edit of a reference, with room for R, which stays there: so it can be copied from where it is known to lie apart.
fn answer_in(
    letters: &[u8],
    asks: Question,
    new: &[u8],
    protein: &mut [u8],
    transcript: &mut [u8],
    reference: usize,
    altered: &mut [u8],
) -> Result<Report, Refusal>
    requires { HasRoom limits.longest (letters_by asks.form letters.now) (length protein.old) }
    ensures { AnswersBeside
        (outcome limits (reference_of (letters_by asks.form letters.now) asks.cds asks.e) (asked asks.edit new.now) (record { transcript = length transcript.entry.now; reference = reference; altered = length altered.old }))
        (told result) protein.new reference transcript.entry.now transcript.exit.now altered.old altered.new }
{
    let e = asks.e;
    let known = check_reference(letters, asks.form, asks.cds, e, LONGEST, protein)?;
    let edit = asks.edit;
    let ready = Ready { known, e, edit };
    answer_beside(
        letters,
        ready,
        &protein[..known.residues],
        new,
        transcript,
        reference,
        altered,
    )
}

// The answer to an edit of a reference, with as much room for R as it wants: the room lies in a function of its own, so that a short reference
// doesn't pay for clearing the room of a long one.
fn answer_with_room<const ROOM: usize>(
    letters: &[u8],
    asks: Question,
    new: &[u8],
    transcript: &mut [u8],
    reference: &mut [u8],
    altered: &mut [u8],
) -> Result<Report, Refusal>
    requires room { HasRoom limits.longest (letters_by asks.form letters.now) ROOM }
    requires room_bound { ROOM < 65536 }
    ensures { Answers
        (outcome limits (reference_of (letters_by asks.form letters.now) asks.cds asks.e) (asked asks.edit new.now) (room_of transcript.old reference.old altered.old))
        (told result) transcript.old transcript.new reference.old reference.new altered.old altered.new }
{
    let mut protein = [0u8; ROOM];
    let report = answer_in(
        letters,
        asks,
        new,
        &mut protein,
        transcript,
        reference.len(),
        altered,
    )?;
    bytewise::copy(&protein[..report.reference], reference);
    Ok(report)
}

// The answer to an edit of a reference: refusals 1 to 12, Unknown, or a report of what the three buffers hold.
#[tactic(auto, unfolding(rules::specs::Translation::residue_count))]
pub fn build_altseq(
    letters: &[u8],
    asks: Question,
    new: &[u8],
    transcript: &mut [u8],
    reference: &mut [u8],
    altered: &mut [u8],
) -> Result<Report, Refusal>
    ensures { Answers
        (outcome limits (reference_of (letters_by asks.form letters.now) asks.cds asks.e) (asked asks.edit new.now) (room_of transcript.old reference.old altered.old))
        (told result) transcript.old transcript.new reference.old reference.new altered.old altered.new }
{
    let size = size_of(letters, asks.form);
    if SHORT < size {
        return answer_with_room::<LONGEST_PROTEIN>(
            letters, asks, new, transcript, reference, altered,
        );
    }
    if SMALL < size {
        return answer_with_room::<SHORT_PROTEIN>(
            letters, asks, new, transcript, reference, altered,
        );
    }
    answer_with_room::<SMALL_PROTEIN>(letters, asks, new, transcript, reference, altered)
}
