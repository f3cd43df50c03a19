// A call of build_altseq.
ghost use Rattle.std.specs.Prelude.{◌≡◌, ◌≤◌};
ghost use Rattle.vectors_calls.specs.Given.{cds_in, edit_in, listed_from};

use crate::fields;
use crate::fields::{byte_at, field, kind, number, position};
use crate::given_exceptions::exceptions_of;
use crate::given_letters::{LETTERS_ROOM, NEW_ROOM, new_of, reference_of};
use crate::printing::{ALTERED_ROOM, REFERENCE_ROOM, TRANSCRIPT_ROOM, print_answer};
use altseq::build_altseq;
use rules::{Cds, Edit, Form, Question};
use std::io;
use std::io::Stdout;

fn cds_of(line: &[u8]) -> Cds
    ensures { result ≡ cds_in line.now }
{
    let cs = number(line, fields::CS);
    let ce = number(line, fields::CE);
    let table = number(line, fields::TABLE);
    Cds {
        cs,
        ce,
        table,
        end: 0,
    }
}

fn edit_of(line: &[u8]) -> Edit
    ensures { result ≡ edit_in line.now }
{
    let kind = kind(line, fields::KIND);
    let start = position(line, fields::START);
    let end = position(line, fields::END);
    Edit { kind, start, end }
}

// The field where exceptions are listed: those whose residue is `-`. The others go by rule.
fn listed_from(line: &[u8]) -> usize
    ensures value { result ≡ listed_from line.now }
    ensures within { result ≤ 18 }
{
    if byte_at(field(line, fields::RESIDUE), 0) == b'-' {
        fields::LISTED
    } else {
        0
    }
}

// Calls with buffers of the marker, of which so much is lent as the line says, and prints what is answered and what the buffers hold.
fn answer(stdout: &mut Stdout, line: &[u8], letters: &[u8], new: &[u8]) -> io::Result<()> {
    let mut transcript = [b'.'; TRANSCRIPT_ROOM];
    let mut reference = [b'.'; REFERENCE_ROOM];
    let mut altered = [b'.'; ALTERED_ROOM];
    let t = number(line, fields::TRANSCRIPT).min(TRANSCRIPT_ROOM);
    let r = number(line, fields::REFERENCE).min(REFERENCE_ROOM);
    let a = number(line, fields::ALTERED).min(ALTERED_ROOM);
    let e = exceptions_of(line, listed_from(line), number(line, fields::COUNT));
    let asks = Question {
        form: Form::Bytes,
        cds: cds_of(line),
        e,
        edit: edit_of(line),
    };
    let found = build_altseq(
        letters,
        asks,
        new,
        &mut transcript[0..t],
        &mut reference[0..r],
        &mut altered[0..a],
    );
    print_answer(stdout, found, &transcript, &reference, &altered)
}

pub fn answer_edit(stdout: &mut Stdout, line: &[u8]) -> io::Result<()> {
    let n = number(line, fields::LETTERS).min(LETTERS_ROOM);
    let m = number(line, fields::NEW).min(NEW_ROOM);
    let letters = reference_of(line, n);
    let new = new_of(line, m);
    answer(stdout, line, &letters[0..n], &new[0..m])
}
