// The record of an edit of a reference without exceptions, over the three parts of A: residues of R before the edit, residues that are read, and R
// again behind it. Neither the altered transcript nor A is written out: only the letters of codons that the edit touches are, and the residues read.
#![tactic(auto)]

mod reading;
mod touched;

ghost use Rattle.std.specs.Prelude.{◌≡◌, length};
ghost use Rattle.rules.specs.Views.{reference_of};
ghost use Rattle.record.specs.Joined.{seen_from, inserted_of};
ghost use Rattle.reuse.specs.Reusing.{pieces_by, ends_in_stop};
ghost use Rattle.altseq.specs.Carried.{protein_by, report_by, Carries};
ghost use Rattle.brief.specs.Brief.{back_behind};

use edits::plans::Plan;
use reading::read_pieces;
use record::record_over;
use reference::Known;
use reuse::{ends_in_stop, pieces_of};
use rules::{Exceptions, Record};

// Where R goes on behind the residues that were read: nowhere, if a stop ended them.
#[tactic(auto, unfolding(crate::specs::Brief::back_behind))]
fn back_of(read: &[u8], back: usize, residues: usize) -> usize
    ensures { result ≡ back_behind read.now back residues }
{
    if ends_in_stop(read) {
        return residues;
    }
    back
}

// The record of a plan. Its inserted residues are counted in the buffer of A, which holds them; what the two buffers hold beside is left open.
pub fn record_of(
    letters: &[u8],
    known: Known,
    none: Exceptions,
    protein: &[u8],
    plan: Plan,
    new: &[u8],
    coding: &mut [u8],
    altered: &mut [u8],
) -> Record
    requires carries { Carries letters.now known none protein.now plan new.now coding.old altered.old }
    requires count_value { none.count ≡ 0 }
    ensures value { result ≡ seen_from (pieces_by known.cds plan (length protein.now)).head (report_by (reference_of letters.now known.cds none) plan new.now).found }
    ensures inserted { inserted_of result altered.new ≡ inserted_of (report_by (reference_of letters.now known.cds none) plan new.now).found (protein_by (reference_of letters.now known.cds none) plan new.now) }
{
    let pieces = pieces_of(known.cds, plan, protein.len());
    let m = read_pieces(letters, known, none, plan, new, pieces, coding, altered);
    let back = back_of(&altered[..m], pieces.back, protein.len());
    record_over(
        protein,
        m,
        pieces.head,
        back,
        plan.shift,
        plan.number,
        altered,
    )
}
