// A proposed record held to an edit of a reference.
ghost use Rattle.std.specs.Prelude.{◌≡◌};
ghost use Rattle.rules.specs.Longest.{check_within};
ghost use Rattle.rules.specs.Views.{room_of};
ghost use Rattle.proposals.specs.Proposed.{proposed};
ghost use Rattle.garumbott.specs.Host.{host_reference, host_asked, Judges};

use checks::Proposed;
use host_given::{cds_at, edit_at, form_at};
use host_told::GarumbottChecked;
use rules::Question;
use stored_fields::exceptions_in;
use within::{Claim, check_within};

#[unsafe(no_mangle)]
pub extern "C" fn garumbott_check(
    letters: &[u8],
    cs: u64,
    ce: u64,
    table: u64,
    exceptions: &[u8],
    cds_end: u64,
    form: u64,
    size: u64,
    kind: u64,
    start_star: u64,
    start: i64,
    end_star: u64,
    end: i64,
    bases: &[u8],
    longest: u64,
    number: u64,
    deleted: &[u8],
    inserted: &[u8],
    transcript: &mut [u8],
    reference: &mut [u8],
    altered: &mut [u8],
) -> GarumbottChecked
    ensures { Judges
        (check_within longest (host_reference letters.now cs ce table exceptions.now cds_end form size) (host_asked kind start_star start end_star end bases.now) (proposed number deleted.now inserted.now) (room_of transcript.old reference.old altered.old))
        result transcript.old transcript.new reference.old reference.new altered.old altered.new }
{
    let cds = cds_at(cs, ce, table, cds_end);
    let e = exceptions_in(exceptions);
    let edit = edit_at(kind, start_star, start, end_star, end);
    let asks = Question {
        form: form_at(form, size),
        cds,
        e,
        edit,
    };
    let proposed = Proposed {
        asks,
        number: number as usize,
    };
    let claim = Claim {
        proposed,
        longest: longest as usize,
    };
    GarumbottChecked::from(check_within(
        letters, claim, bases, deleted, inserted, transcript, reference, altered,
    ))
}
