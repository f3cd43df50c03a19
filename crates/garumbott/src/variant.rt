// One edit of a reference: the altered transcript alone, and the whole answer.
ghost use Rattle.std.specs.Prelude.{◌≡◌, length};
ghost use Rattle.rules.specs.Bytes.{over};
ghost use Rattle.rules.specs.Longest.{outcome_within};
ghost use Rattle.rules.specs.Views.{room_of};
ghost use Rattle.within.specs.Edited.{edited_within};
ghost use Rattle.host_told.specs.Told.{transcribed_of};
ghost use Rattle.garumbott.specs.Host.{host_reference, host_asked, Tells};

use host_given::{cds_at, edit_at, form_at};
use host_told::GarumbottAnswer;
use rules::Question;
use stored_fields::exceptions_in;
use within::{record_within, transcript_within};

#[unsafe(no_mangle)]
pub extern "C" fn garumbott_edit(
    letters: &[u8],
    cs: u64,
    ce: u64,
    table: u64,
    exceptions: &[u8],
    cds_end: u64,
    form: u64,
    size: u64,
    kind: u64,
    start_star: u64,
    start: i64,
    end_star: u64,
    end: i64,
    bases: &[u8],
    longest: u64,
    transcript: &mut [u8],
) -> GarumbottAnswer
    ensures value { result ≡ transcribed_of (edited_within longest (host_reference letters.now cs ce table exceptions.now cds_end form size) (host_asked kind start_star start end_star end bases.now) (length transcript.old)).answer }
    ensures transcript_after { transcript.new ≡ over (edited_within longest (host_reference letters.now cs ce table exceptions.now cds_end form size) (host_asked kind start_star start end_star end bases.now) (length transcript.old)).transcript transcript.old }
{
    let cds = cds_at(cs, ce, table, cds_end);
    let e = exceptions_in(exceptions);
    let edit = edit_at(kind, start_star, start, end_star, end);
    let asks = Question {
        form: form_at(form, size),
        cds,
        e,
        edit,
    };
    GarumbottAnswer::from(transcript_within(letters, asks, longest as usize, bases, transcript))
}

#[unsafe(no_mangle)]
pub extern "C" fn garumbott_record(
    letters: &[u8],
    cs: u64,
    ce: u64,
    table: u64,
    exceptions: &[u8],
    cds_end: u64,
    form: u64,
    size: u64,
    kind: u64,
    start_star: u64,
    start: i64,
    end_star: u64,
    end: i64,
    bases: &[u8],
    longest: u64,
    transcript: &mut [u8],
    reference: &mut [u8],
    altered: &mut [u8],
) -> GarumbottAnswer
    ensures { Tells
        (outcome_within longest (host_reference letters.now cs ce table exceptions.now cds_end form size) (host_asked kind start_star start end_star end bases.now) (room_of transcript.old reference.old altered.old))
        result transcript.old transcript.new reference.old reference.new altered.old altered.new }
{
    let cds = cds_at(cs, ce, table, cds_end);
    let e = exceptions_in(exceptions);
    let edit = edit_at(kind, start_star, start, end_star, end);
    let asks = Question {
        form: form_at(form, size),
        cds,
        e,
        edit,
    };
    GarumbottAnswer::from(record_within(
        letters,
        asks,
        longest as usize,
        bases,
        transcript,
        reference,
        altered,
    ))
}
