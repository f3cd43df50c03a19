// An edit line.
ghost use Rattle.std.proofs.Math.Option.{some};
ghost use Rattle.std.specs.Prelude.{[], ◌∷◌};
ghost use Rattle.rules.specs.Translation.{no_exceptions};
ghost use Rattle.rules.specs.Run.{edit_answer, unlines};
ghost use Rattle.rules.specs.Views.{bare, asked, reference_of};
ghost use Rattle.altseq.specs.Carried.{Carries};
ghost use Rattle.text_answers.specs.Rooms.{Ample};
ghost use Rattle.text_answers.specs.Stage.{editing, answered};
ghost use Rattle.text_answers.specs.Lines.{KnowsText, plan_line, Line};

use crate::fits_line;
use brief::record_of;
use edits::decision::decide;
use edits::plans::Plan;
use reference::Known;
use rules::{Edit, Exceptions, Record, Refusal};
use text_forms::parse_edit;
use text_prints::{print_record, print_refusal};

// The most new bases of an edit.
const MOST: usize = 4096;

// An edit that goes. Its line is printed to the transcript's buffer, once the letters there aren't wanted any more.
fn answer_plan(
    letters: &[u8],
    known: Known,
    protein: &[u8],
    plan: Plan,
    new: &[u8],
    transcript: &mut [u8],
    altered: &mut [u8],
) -> usize
    requires carries { Carries letters.now known no_exceptions protein.now plan new.now transcript.old altered.old }
    requires knows_text { KnowsText letters.now known protein.now }
    requires ample { Ample transcript.old altered.old }
    ensures { Line result transcript.new (unlines (plan_line (reference_of letters.now known.cds no_exceptions) protein.now plan new.now ∷ [])) }
{
    let found = record_of(
        letters,
        known,
        Exceptions::none(),
        protein,
        plan,
        new,
        transcript,
        altered,
    );
    print_record(found, protein, altered, transcript)
}

// An edit of the reference.
fn answer_asked(
    letters: &[u8],
    known: Known,
    protein: &[u8],
    edit: Edit,
    new: &[u8],
    transcript: &mut [u8],
    altered: &mut [u8],
) -> usize
    requires knows_text { KnowsText letters.now known protein.now }
    requires ample { Ample transcript.old altered.old }
    ensures { Line result transcript.new (unlines (edit_answer (bare letters.now known.cds) (some (asked edit new.now)) ∷ [])) }
{
    match decide(letters, known, MOST, edit, new) {
        Err(refusal) => print_refusal(refusal, transcript),
        Ok(None) => print_record(Record::Unknown, protein, &[], transcript),
        Ok(Some(plan)) => answer_plan(letters, known, protein, plan, new, transcript, altered),
    }
}

// An edit line of the reference. The buffers of the altered transcript and of its protein are working room: what they hold behind the answer is left open.
pub fn answer_edit(
    line: &[u8],
    letters: &[u8],
    known: Known,
    protein: &[u8],
    transcript: &mut [u8],
    altered: &mut [u8],
) -> usize
    requires knows_text { KnowsText letters.now known protein.now }
    requires ample { Ample transcript.old altered.old }
    ensures { Line result transcript.new (answered (editing (bare letters.now known.cds) line.now)) }
{
    if !fits_line(line) {
        return print_refusal(Refusal::Line, transcript);
    }
    let Some(asked) = parse_edit(line) else {
        return print_refusal(Refusal::Line, transcript);
    };
    answer_asked(
        letters,
        known,
        protein,
        asked.edit,
        &line[asked.at..],
        transcript,
        altered,
    )
}
