// A plan carried out: what is written, and the record of it. Nothing is refused here.
ghost use Rattle.std.specs.Prelude.{◌≡◌, ◌-◌, ◌/◌, min, length, drop};
ghost use Rattle.rules.specs.Bytes.{over};
ghost use Rattle.rules.specs.Protein.{protein_of};
ghost use Rattle.rules.specs.Packed.{letters_by};
ghost use Rattle.rules.specs.Views.{reference_of};
ghost use Rattle.transcript.specs.Carrying.{carried_by};
ghost use Rattle.record.specs.Shares.{Shares};
ghost use Rattle.altseq.specs.Carried.{protein_by, looked_by, report_by, Codes, Makes, Carries};

use edits::plans::Plan;
use exceptions::alt_translation_exceptions;
use record::record_beside;
use reference::Known;
use reuse::{pieces_of, write_reusing};
use rules::{Exceptions, Report};
use transcript::write_transcript;
use translation::all_bases;
use walks::{Walked, write_through_stop};

// Writes the protein of an altered transcript, every codon read and the exceptions moved, through its first stop.
fn write_protein(
    letters: &[u8],
    known: Known,
    e: Exceptions,
    new: &[u8],
    transcript: &[u8],
    altered: &mut [u8],
) -> Walked
    requires { Codes (letters_by known.form letters.now) known e new.now transcript.now altered.old }
    ensures residues_value { result.residues ≡ length (protein_of (reference_of (letters_by known.form letters.now) known.cds e) transcript.now) }
    ensures looked_value { result.looked ≡ min (length (protein_of (reference_of (letters_by known.form letters.now) known.cds e) transcript.now)) (length (drop (known.cds.cs - 1) transcript.now) / 3) }
    ensures altered_after { altered.new ≡ over (protein_of (reference_of (letters_by known.form letters.now) known.cds e) transcript.now) altered.old }
{
    let c = known.cds;
    let first = c.cs - 1;
    let form = known.form;
    let moved = alt_translation_exceptions(letters, form, transcript, first, e);
    let plain = known.plain & all_bases(new);
    write_through_stop(&transcript[first..], c.table, plain, moved, altered)
}

// A as it was written: its residues, the codons looked up for it, and how many residues at its start and at its end are R's.
#[derive(Clone, Copy)]
struct Made {
    residues: usize,
    looked: usize,
    ahead: usize,
    behind: usize,
}

// Writes A: without exceptions, what an edit leaves of R is reused.
fn write_altered(
    letters: &[u8],
    known: Known,
    e: Exceptions,
    protein: &[u8],
    plan: Plan,
    new: &[u8],
    transcript: &[u8],
    altered: &mut [u8],
) -> Made
    requires { Makes (letters_by known.form letters.now) known e protein.now plan new.now transcript.now altered.old }
    ensures residues_value { result.residues ≡ length (protein_by (reference_of (letters_by known.form letters.now) known.cds e) plan new.now) }
    ensures looked_value { result.looked ≡ looked_by (reference_of (letters_by known.form letters.now) known.cds e) plan new.now }
    ensures shares { Shares result.ahead result.behind protein.now (protein_by (reference_of (letters_by known.form letters.now) known.cds e) plan new.now) }
    ensures altered_after { altered.new ≡ over (protein_by (reference_of (letters_by known.form letters.now) known.cds e) plan new.now) altered.old }
{
    if e.count != 0 {
        let walked = write_protein(letters, known, e, new, transcript, altered);
        return Made {
            residues: walked.residues,
            looked: walked.looked,
            ahead: 0,
            behind: 0,
        };
    }
    let c = known.cds;
    let pieces = pieces_of(c, plan, protein.len());
    let ahead = pieces.head;
    let bases = known.plain & all_bases(new);
    let reused = write_reusing(transcript, c.table, bases, e, protein, pieces, altered);
    Made {
        residues: reused.residues,
        looked: reused.looked,
        ahead,
        behind: reused.behind,
    }
}

// Writes the altered transcript and A, each from its buffer's start, and reports them beside R, which is lent.
pub fn carry_out(
    letters: &[u8],
    known: Known,
    e: Exceptions,
    protein: &[u8],
    plan: Plan,
    new: &[u8],
    transcript: &mut [u8],
    altered: &mut [u8],
) -> Report
    requires { Carries (letters_by known.form letters.now) known e protein.now plan new.now transcript.old altered.old }
    ensures value { result ≡ report_by (reference_of (letters_by known.form letters.now) known.cds e) plan new.now }
    ensures transcript_after { transcript.new ≡ over (carried_by plan (letters_by known.form letters.now) new.now) transcript.old }
    ensures altered_after { altered.new ≡ over (protein_by (reference_of (letters_by known.form letters.now) known.cds e) plan new.now) altered.old }
{
    let form = known.form;
    let n = write_transcript(letters, form, plan, new, transcript);
    let made = write_altered(
        letters,
        known,
        e,
        protein,
        plan,
        new,
        &transcript[..n],
        altered,
    );
    let k = made.residues;
    let found = record_beside(
        protein,
        &altered[..k],
        plan.shift,
        plan.number,
        made.ahead,
        made.behind,
    );
    Report {
        found,
        frameshift: plan.shift,
        transcript: n,
        reference: known.residues,
        altered: k,
        codons: made.looked,
    }
}
