// A proposed record held to an edit of a reference.
ghost use Rattle.std.specs.Prelude.{◌≡◌, ◌<◌, length};
ghost use Rattle.rules.specs.Bytes.{over};
ghost use Rattle.rules.specs.Refusal.{limits};
ghost use Rattle.rules.specs.Refusals.{told};
ghost use Rattle.rules.specs.Check.{check_outcome};
ghost use Rattle.rules.specs.Packed.{letters_by};
ghost use Rattle.rules.specs.Views.{asked, reference_of, room_of};
ghost use Rattle.reference.specs.Known.{HasRoom};
ghost use Rattle.altseq.specs.Carried.{Carries};
ghost use Rattle.proposals.specs.Proposed.{proposed};
ghost use Rattle.checks.specs.Checking.{CheckAnswers, Holds, judged_outcome};

use crate::{Room, decide_changing};
use altseq::carry_out;
use edits::plans::Plan;
use packed::size_of;
use proposals::{is_proposal, judge};
use reference::{Known, check_reference};
use rules::{
    Exceptions, LONGEST, LONGEST_PROTEIN, Question, Refusal, SHORT, SHORT_PROTEIN, Verdict,
};

// What is asked of a reference, and a proposal's number. The residues of the proposal are lent beside it.
#[derive(Clone, Copy)]
pub struct Proposed {
    pub asks: Question,
    pub number: usize,
}

// The same, and how many bytes are lent for R.
#[derive(Clone, Copy)]
struct Proposing {
    asks: Question,
    number: usize,
    room: usize,
}

// What goes on to be judged: a checked reference, the plan of an edit that changes its protein, and a proposal's number.
#[derive(Clone, Copy)]
struct Going {
    known: Known,
    e: Exceptions,
    plan: Plan,
    number: usize,
}

// 27, or the two answers: the altered transcript and A are written.
fn judge_going(
    letters: &[u8],
    going: Going,
    protein: &[u8],
    new: &[u8],
    deleted: &[u8],
    inserted: &[u8],
    transcript: &mut [u8],
    altered: &mut [u8],
) -> Result<Verdict, Refusal>
    requires { Carries (letters_by going.known.form letters.now) going.known going.e protein.now going.plan new.now transcript.old altered.old }
    ensures answer { told result ≡ (judged_outcome (proposed going.number deleted.now inserted.now) (reference_of (letters_by going.known.form letters.now) going.known.cds going.e) going.plan new.now).answer }
    ensures transcript_after { transcript.new ≡ over (judged_outcome (proposed going.number deleted.now inserted.now) (reference_of (letters_by going.known.form letters.now) going.known.cds going.e) going.plan new.now).transcript transcript.old }
    ensures altered_after { altered.new ≡ over (judged_outcome (proposed going.number deleted.now inserted.now) (reference_of (letters_by going.known.form letters.now) going.known.cds going.e) going.plan new.now).altered altered.old }
{
    let known = going.known;
    let e = going.e;
    let plan = going.plan;
    let number = going.number;
    if !is_proposal(protein.len(), number, deleted, inserted) {
        return Err(Refusal::Proposal);
    }
    let report = carry_out(letters, known, e, protein, plan, new, transcript, altered);
    let judged = judge(
        protein,
        &altered[..report.altered],
        number,
        deleted,
        inserted,
    );
    Ok(Verdict {
        replays: judged.replays,
        shortest: judged.shortest,
        transcript: report.transcript,
        reference: report.reference,
        altered: report.altered,
    })
}

// The answer to a proposed record, with room for R, which is left there where the answer reports it.
fn check_in(
    letters: &[u8],
    proposing: Proposing,
    new: &[u8],
    deleted: &[u8],
    inserted: &[u8],
    protein: &mut [u8],
    transcript: &mut [u8],
    altered: &mut [u8],
) -> Result<Verdict, Refusal>
    requires { HasRoom limits.longest (letters_by proposing.asks.form letters.now) (length protein.old) }
    ensures { Holds
        (check_outcome limits (reference_of (letters_by proposing.asks.form letters.now) proposing.asks.cds proposing.asks.e) (asked proposing.asks.edit new.now) (proposed proposing.number deleted.now inserted.now)
        (record { transcript = length transcript.entry.now; reference = proposing.room; altered = length altered.old }))
        (told result) transcript.entry.now transcript.exit.now proposing.room protein.new altered.old altered.new }
{
    let asks = proposing.asks;
    let e = asks.e;
    let known = check_reference(letters, asks.form, asks.cds, e, LONGEST, protein)?;
    let room = Room {
        transcript: transcript.len(),
        reference: proposing.room,
        altered: altered.len(),
    };
    let plan = decide_changing(
        letters,
        known,
        e,
        &protein[..known.residues],
        asks.edit,
        new,
        room,
    )?;
    let going = Going {
        known,
        e,
        plan,
        number: proposing.number,
    };
    judge_going(
        letters,
        going,
        &protein[..known.residues],
        new,
        deleted,
        inserted,
        transcript,
        altered,
    )
}

// The answer to a proposed record of an edit of a reference, with room for ROOM residues of R. Each room lies in a function of its own, so that a
// call has but one of them.
fn check_with_room<const ROOM: usize>(
    letters: &[u8],
    p: Proposed,
    new: &[u8],
    deleted: &[u8],
    inserted: &[u8],
    transcript: &mut [u8],
    reference: &mut [u8],
    altered: &mut [u8],
) -> Result<Verdict, Refusal>
    requires room { HasRoom limits.longest (letters_by p.asks.form letters.now) ROOM }
    requires room_bound { ROOM < 65536 }
    ensures { CheckAnswers
        (check_outcome limits (reference_of (letters_by p.asks.form letters.now) p.asks.cds p.asks.e) (asked p.asks.edit new.now) (proposed p.number deleted.now inserted.now) (room_of transcript.old reference.old altered.old))
        (told result) transcript.old transcript.new reference.old reference.new altered.old altered.new }
{
    let proposing = Proposing {
        asks: p.asks,
        number: p.number,
        room: reference.len(),
    };
    let mut protein = [0u8; ROOM];
    let verdict = check_in(
        letters,
        proposing,
        new,
        deleted,
        inserted,
        &mut protein,
        transcript,
        altered,
    )?;
    bytewise::copy(&protein[..verdict.reference], reference);
    Ok(verdict)
}

// The answer to a proposed record of an edit of a reference: 1 to 5, 6 or 28, 7 to 10, 26 for an Unknown, 11, 12, 26 and 27, or whether it
// replays and whether it is the shortest. Then the three buffers hold what the edit's own answer writes.
#[tactic(auto, unfolding(rules::specs::Translation::residue_count))]
pub fn check_altseq(
    letters: &[u8],
    p: Proposed,
    new: &[u8],
    deleted: &[u8],
    inserted: &[u8],
    transcript: &mut [u8],
    reference: &mut [u8],
    altered: &mut [u8],
) -> Result<Verdict, Refusal>
    ensures { CheckAnswers
        (check_outcome limits (reference_of (letters_by p.asks.form letters.now) p.asks.cds p.asks.e) (asked p.asks.edit new.now) (proposed p.number deleted.now inserted.now) (room_of transcript.old reference.old altered.old))
        (told result) transcript.old transcript.new reference.old reference.new altered.old altered.new }
{
    if SHORT < size_of(letters, p.asks.form) {
        return check_with_room::<LONGEST_PROTEIN>(
            letters, p, new, deleted, inserted, transcript, reference, altered,
        );
    }
    check_with_room::<SHORT_PROTEIN>(
        letters, p, new, deleted, inserted, transcript, reference, altered,
    )
}
