// The residues that are read: of the letters that the edit touches, and behind a frameshift of the reference's own.
ghost use Rattle.std.specs.Prelude.{◌≡◌, [], ◌++◌, ◌+◌, ◌-◌, ◌≤◌, length};
ghost use Rattle.rules.specs.Bytes.{over};
ghost use Rattle.rules.specs.Translation.{through_stop, folded_translated};
ghost use Rattle.transcript.specs.Carrying.{carried_by};
ghost use Rattle.reuse.specs.Reusing.{read_by};
ghost use Rattle.brief.specs.Brief.{edge_of, Follows, Spans};

use crate::touched::write_touched;
use edits::plans::Plan;
use reference::Known;
use reuse::{Pieces, ends_in_stop};
use rules::Exceptions;
use translation::all_bases;
use walks::write_through_stop;

// Writes the residues of letters in two parts through the first stop: the first part is of whole codons, or nothing follows it.
fn write_both(
    touched: &[u8],
    own: &[u8],
    table: usize,
    plain: bool,
    none: Exceptions,
    out: &mut [u8],
) -> usize
    requires { Follows table plain touched.now own.now none out.old }
    ensures value { result ≡ length (through_stop (folded_translated table [] (touched.now ++ own.now))) }
    ensures out_after { out.new ≡ over (through_stop (folded_translated table [] (touched.now ++ own.now))) out.old }
{
    let n = write_through_stop(touched, table, plain, none, out).residues;
    if own.len() == 0 {
        return n;
    }
    if ends_in_stop(&out[..n]) {
        return n;
    }
    n + write_through_stop(own, table, plain, none, &mut out[n..]).residues
}

// The end of the codons that an edit touches, of those that are read.
#[tactic(auto, unfolding(crate::specs::Brief::edge_of))]
fn edge_of(plan: Plan, start: usize, end: usize) -> usize
    requires { (start ≤ plan.from) × (plan.from + plan.kept ≤ end) × (end ≤ 17179869184) }
    ensures { result ≡ edge_of plan start end }
{
    let touched = plan.from + plan.kept - start;
    end.min(start + (touched + 2) / 3 * 3)
}

// Writes the residues of what an edit has read, of some letters. Those of codons that it touches are written to `coding`.
fn read_some(
    letters: &[u8],
    known: Known,
    none: Exceptions,
    plan: Plan,
    new: &[u8],
    pieces: Pieces,
    coding: &mut [u8],
    out: &mut [u8],
) -> usize
    requires spans { Spans letters.now known none plan new.now pieces coding.old out.old }
    requires some_read { pieces.start ≡ pieces.end → ⊥ }
    ensures value { result ≡ length (through_stop (folded_translated known.cds.table [] (read_by (carried_by plan letters.now new.now) pieces))) }
    ensures out_after { out.new ≡ over (through_stop (folded_translated known.cds.table [] (read_by (carried_by plan letters.now new.now) pieces))) out.old }
{
    let start = pieces.start;
    let end = pieces.end;
    let edge = edge_of(plan, start, end);
    let n = write_touched(letters, plan, new, start, edge, coding);
    let put = plan.from + plan.kept;
    let at = plan.to + (edge - put);
    let last = plan.to + (end - put);
    let plain = known.plain & all_bases(new);
    write_both(
        &coding[..n],
        &letters[at..last],
        known.cds.table,
        plain,
        none,
        out,
    )
}

// Writes the residues that an edit has read, through the first stop.
pub(crate) fn read_pieces(
    letters: &[u8],
    known: Known,
    none: Exceptions,
    plan: Plan,
    new: &[u8],
    pieces: Pieces,
    coding: &mut [u8],
    out: &mut [u8],
) -> usize
    requires { Spans letters.now known none plan new.now pieces coding.old out.old }
    ensures value { result ≡ length (through_stop (folded_translated known.cds.table [] (read_by (carried_by plan letters.now new.now) pieces))) }
    ensures out_after { out.new ≡ over (through_stop (folded_translated known.cds.table [] (read_by (carried_by plan letters.now new.now) pieces))) out.old }
{
    if pieces.start == pieces.end {
        return 0;
    }
    read_some(letters, known, none, plan, new, pieces, coding, out)
}
