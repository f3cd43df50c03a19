// Two edits of one reference.
ghost use Rattle.std.specs.Prelude.{◌≡◌};
ghost use Rattle.rules.specs.Longest.{pair_within};
ghost use Rattle.pairs.specs.Carrying.{pair_room_of};
ghost use Rattle.garumbott.specs.Host.{host_reference, host_asked, Joins};

use host_given::{cds_at, edit_at, form_at};
use host_told::GarumbottPaired;
use pairs::Question;
use stored_fields::exceptions_in;
use within::pair_within;

#[unsafe(no_mangle)]
pub extern "C" fn garumbott_pair(
    letters: &[u8],
    cs: u64,
    ce: u64,
    table: u64,
    exceptions: &[u8],
    cds_end: u64,
    form: u64,
    size: u64,
    kind: u64,
    start_star: u64,
    start: i64,
    end_star: u64,
    end: i64,
    bases: &[u8],
    longest: u64,
    other_kind: u64,
    other_start_star: u64,
    other_start: i64,
    other_end_star: u64,
    other_end: i64,
    other_bases: &[u8],
    other_longest: u64,
    transcript: &mut [u8],
    altered: &mut [u8],
) -> GarumbottPaired
    ensures { Joins
        (pair_within longest other_longest (host_reference letters.now cs ce table exceptions.now cds_end form size) (host_asked kind start_star start end_star end bases.now) (host_asked other_kind other_start_star other_start other_end_star other_end other_bases.now) (pair_room_of transcript.old altered.old))
        result transcript.old transcript.new altered.old altered.new }
{
    let cds = cds_at(cs, ce, table, cds_end);
    let e = exceptions_in(exceptions);
    let first = edit_at(kind, start_star, start, end_star, end);
    let second = edit_at(
        other_kind,
        other_start_star,
        other_start,
        other_end_star,
        other_end,
    );
    let asks = Question {
        form: form_at(form, size),
        cds,
        e,
        first,
        second,
    };
    GarumbottPaired::from(pair_within(
        letters,
        asks,
        longest as usize,
        bases,
        other_longest as usize,
        other_bases,
        transcript,
        altered,
    ))
}
