// An edit of a stored reference.
ghost use Rattle.rules.specs.Refusal.{limits};
ghost use Rattle.std.specs.Prelude.{◌≡◌};
ghost use Rattle.rules.specs.Refusals.{told};
ghost use Rattle.rules.specs.Stored.{read_reference};
ghost use Rattle.rules.specs.Answer.{outcome, Answers};
ghost use Rattle.rules.specs.Views.{asked, room_of};
ghost use Rattle.stored.specs.Outcomes.{outcome_of};
ghost use Rattle.stored_fields.specs.Reading.{placed_reference, Placed};

use crate::read::{is_joined, refusal_at};
use altseq::build_altseq;
use fields::bytes_at;
use rules::{Edit, Form, Question, Refusal, Report};
use stored_fields::{StoredAt, exceptions_in, find_stored};

// The answer to an edit of a reference that stands in the bytes, its letters in one part.
fn answer_at(
    s: &[u8],
    p: StoredAt,
    edit: Edit,
    new: &[u8],
    transcript: &mut [u8],
    reference: &mut [u8],
    altered: &mut [u8],
) -> Result<Report, Refusal>
    requires placed { Placed s.now p }
    requires len_value { p.second.len ≡ 0 }
    ensures { Answers
        (outcome limits (placed_reference s.now p) (asked edit new.now) (room_of transcript.old reference.old altered.old))
        (told result) transcript.old transcript.new reference.old reference.new altered.old altered.new }
{
    let e = exceptions_in(bytes_at(s, p.exceptions));
    let cds = p.cds;
    let asks = Question {
        form: Form::Bytes,
        cds,
        e,
        edit,
    };
    build_altseq(
        bytes_at(s, p.letters),
        asks,
        new,
        transcript,
        reference,
        altered,
    )
}

// The answer to an edit of the reference that the bytes store: its refusal, 20 to 25, else as `build_altseq` answers, which judges the
// reference first. Letters that have to be joined are refused with 29 behind those: no buffer is lent for them. `read_stored` joins them, for
// `build_altseq`.
pub fn build_altseq_stored(
    s: &[u8],
    edit: Edit,
    new: &[u8],
    transcript: &mut [u8],
    reference: &mut [u8],
    altered: &mut [u8],
) -> Result<Report, Refusal>
    ensures { Answers
        (outcome_of limits (read_reference limits.longest 0 s.now) (asked edit new.now) (room_of transcript.old reference.old altered.old))
        (told result) transcript.old transcript.new reference.old reference.new altered.old altered.new }
{
    let p = find_stored(s)?;
    if is_joined(p) {
        refusal_at(s, p)?;
        return Err(Refusal::JoinedRoom);
    }
    answer_at(s, p, edit, new, transcript, reference, altered)
}
