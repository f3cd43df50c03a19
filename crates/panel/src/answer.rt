// The answer to an edit under the profile: 1 to 10, then 40 to 43, then what the full module answers. The reference is checked once.
ghost use Rattle.std.specs.Prelude.{◌<◌, length};
ghost use Rattle.rules.specs.Refusal.{limits};
ghost use Rattle.rules.specs.Refusals.{told};
ghost use Rattle.rules.specs.Answer.{Answers};
ghost use Rattle.rules.specs.Packed.{letters_by};
ghost use Rattle.rules.specs.Panel.{panel_outcome};
ghost use Rattle.rules.specs.Views.{asked, reference_of, room_of};
ghost use Rattle.reference.specs.Known.{HasRoom, Knows};

use altseq::{Ready, answer_known};
use packed::size_of;
use positions::refusals::edit_refusal;
use profile::profile_refusal;
use reference::check_reference;
use rules::{LONGEST, LONGEST_PROTEIN, MOST, Question, Refusal, Report, SHORT, SHORT_PROTEIN};

// The answer to an edit of a checked reference, whose substitution names a base.
fn answer_profiled(
    letters: &[u8],
    ready: Ready,
    named: usize,
    protein: &[u8],
    new: &[u8],
    transcript: &mut [u8],
    reference: &mut [u8],
    altered: &mut [u8],
) -> Result<Report, Refusal>
    requires { Knows limits (letters_by ready.known.form letters.now) ready.known ready.e protein.now }
    ensures { Answers
        (panel_outcome limits (reference_of (letters_by ready.known.form letters.now) ready.known.cds ready.e) (asked ready.edit new.now) named (room_of transcript.old reference.old altered.old))
        (told result) transcript.old transcript.new reference.old reference.new altered.old altered.new }
{
    let known = ready.known;
    let edit = ready.edit;
    let size = size_of(letters, known.form);
    edit_refusal(size, known.cds, MOST, edit, new)?;
    profile_refusal(letters, known, edit, new, named)?;
    answer_known(letters, ready, protein, new, transcript, reference, altered)
}

// The answer to an edit of a reference, with room for R.
fn answer_in(
    letters: &[u8],
    asks: Question,
    named: usize,
    new: &[u8],
    protein: &mut [u8],
    transcript: &mut [u8],
    reference: &mut [u8],
    altered: &mut [u8],
) -> Result<Report, Refusal>
    requires { HasRoom limits.longest (letters_by asks.form letters.now) (length protein.old) }
    ensures { Answers
        (panel_outcome limits (reference_of (letters_by asks.form letters.now) asks.cds asks.e) (asked asks.edit new.now) named (room_of transcript.old reference.old altered.old))
        (told result) transcript.old transcript.new reference.old reference.new altered.old altered.new }
{
    let e = asks.e;
    let known = check_reference(letters, asks.form, asks.cds, e, LONGEST, protein)?;
    let edit = asks.edit;
    let ready = Ready { known, e, edit };
    answer_profiled(
        letters,
        ready,
        named,
        &protein[..known.residues],
        new,
        transcript,
        reference,
        altered,
    )
}

// The answer to an edit of a reference, with room for ROOM residues of R. Each room lies in a function of its own, so that a call has but one of them.
fn answer_with_room<const ROOM: usize>(
    letters: &[u8],
    asks: Question,
    named: usize,
    new: &[u8],
    transcript: &mut [u8],
    reference: &mut [u8],
    altered: &mut [u8],
) -> Result<Report, Refusal>
    requires room { HasRoom limits.longest (letters_by asks.form letters.now) ROOM }
    requires room_bound { ROOM < 65536 }
    ensures { Answers
        (panel_outcome limits (reference_of (letters_by asks.form letters.now) asks.cds asks.e) (asked asks.edit new.now) named (room_of transcript.old reference.old altered.old))
        (told result) transcript.old transcript.new reference.old reference.new altered.old altered.new }
{
    let mut protein = [0u8; ROOM];
    answer_in(
        letters,
        asks,
        named,
        new,
        &mut protein,
        transcript,
        reference,
        altered,
    )
}

// The answer to an edit of a reference under the profile, whose substitution names a base: refusals 1 to 10, 40 to 43, then as `build_altseq`
// answers.
#[tactic(auto, unfolding(rules::specs::Translation::residue_count))]
pub fn build_panel(
    letters: &[u8],
    asks: Question,
    named: usize,
    new: &[u8],
    transcript: &mut [u8],
    reference: &mut [u8],
    altered: &mut [u8],
) -> Result<Report, Refusal>
    ensures { Answers
        (panel_outcome limits (reference_of (letters_by asks.form letters.now) asks.cds asks.e) (asked asks.edit new.now) named (room_of transcript.old reference.old altered.old))
        (told result) transcript.old transcript.new reference.old reference.new altered.old altered.new }
{
    if SHORT < size_of(letters, asks.form) {
        return answer_with_room::<LONGEST_PROTEIN>(
            letters, asks, named, new, transcript, reference, altered,
        );
    }
    answer_with_room::<SHORT_PROTEIN>(letters, asks, named, new, transcript, reference, altered)
}
