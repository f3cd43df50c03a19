// What an edit of a stored reference is answered, as text.

use crate::answers::{print_number, print_refusal};
use byte_numbers::two_bytes;
use rules::{Change, Edit, Kind, Record, Refusal, Report};
use std::io;
use std::io::{Stdout, Write};
use stored::build_altseq_stored;
use text_forms::signed_by;

// Room for each answer of the cases.
const TRANSCRIPT_ROOM: usize = 32;

const REFERENCE_ROOM: usize = 8;

const ALTERED_ROOM: usize = 16;

// The number, and how many residues are deleted and inserted.
fn print_change(stdout: &mut Stdout, c: Change) -> io::Result<()> {
    print_number(stdout, b": changed ", c.number)?;
    print_number(stdout, b" ", c.deleted.len)?;
    print_number(stdout, b" ", c.inserted.len)
}

fn print_record(stdout: &mut Stdout, found: Record) -> io::Result<()> {
    match found {
        Record::Unknown => stdout.write_all(b": unknown"),
        Record::NoProtein => stdout.write_all(b": no-protein"),
        Record::Silent { number, residue: _ } => print_number(stdout, b": silent ", number),
        Record::Changed(c) => print_change(stdout, c),
    }
}

fn print_answer(stdout: &mut Stdout, answer: Result<Report, Refusal>) -> io::Result<()> {
    match answer {
        Ok(report) => print_record(stdout, report.found),
        Err(refusal) => print_refusal(stdout, refusal),
    }
}

fn print_bytes(stdout: &mut Stdout, s: &[u8]) -> io::Result<()> {
    stdout.write_all(b" ")?;
    stdout.write_all(s)
}

// The answer, and what the three buffers of dots hold then.
fn print_outcome(stdout: &mut Stdout, s: &[u8], edit: Edit, new: &[u8]) -> io::Result<()> {
    let mut transcript = [b'.'; TRANSCRIPT_ROOM];
    let mut reference = [b'.'; REFERENCE_ROOM];
    let mut altered = [b'.'; ALTERED_ROOM];
    let answer = build_altseq_stored(s, edit, new, &mut transcript, &mut reference, &mut altered);
    print_answer(stdout, answer)?;
    print_bytes(stdout, &transcript)?;
    print_bytes(stdout, &reference)?;
    print_bytes(stdout, &altered)
}

// An edit: the kind's number, two positions, each a sign and a number of two bytes, and the new bases.
pub fn print_edit(stdout: &mut Stdout, s: &[u8], e: &[u8]) -> io::Result<()> {
    if e.len() < 7 {
        return Ok(());
    }
    let edit = Edit {
        kind: Kind::from(u64::from(e[0])),
        start: signed_by(e[1], two_bytes(e, 2)),
        end: signed_by(e[4], two_bytes(e, 5)),
    };
    print_outcome(stdout, s, edit, &e[7..])
}
