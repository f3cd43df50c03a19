// A call of a function that stands alone: its arguments are fields behind the word that names it, the last one with all that follows.
use crate::fields::{field, number, word};
use crate::given_exceptions::exceptions_of;
use crate::printing::{print, print_next, print_record, print_refusal};
use names::{aa1_to_aa3, aa3_to_aa1};
use record::record_from;
use rules::Refusal;
use sequences::{common_prefix_len, common_suffix_len, revcomp};
use std::io;
use std::io::Stdout;
use translation::translate_cds_with_exceptions;

// The most room that a line lends.
const ROOM: usize = 96;

// The field where a translation's exceptions begin, and the most that are read.
const FIRST: usize = 5;

const MOST: usize = 17;

// What a buffer holds, as much of it as was lent.
fn print_lent(stdout: &mut Stdout, out: &[u8], room: usize) -> io::Result<()> {
    if room <= out.len() {
        print(stdout, &out[0..room])?;
    }
    Ok(())
}

// The answer, and what the buffer of the marker holds.
fn print_written(
    stdout: &mut Stdout,
    answer: Result<usize, Refusal>,
    out: &[u8; ROOM],
    room: usize,
) -> io::Result<()> {
    match answer {
        Ok(n) => print_next(stdout, n)?,
        Err(refusal) => print_refusal(stdout, refusal)?,
    }
    print(stdout, b" ")?;
    print_lent(stdout, out, room)
}

// table, full codons demanded (1) or not, room, exceptions: how many, and a codon and a residue for each, and the bases
pub fn answer_translation(stdout: &mut Stdout, line: &[u8]) -> io::Result<()> {
    let mut out = [b'.'; ROOM];
    let room = number(line, 3).min(ROOM);
    let count = number(line, 4);
    let e = exceptions_of(line, FIRST, count);
    let seq = field(line, FIRST + 2 * count.min(MOST));
    let full = number(line, 2) == 1;
    let answer = translate_cds_with_exceptions(seq, number(line, 1), e, full, &mut out[0..room]);
    print_written(stdout, answer, &out, room)
}

// room and residues
pub fn answer_names(stdout: &mut Stdout, line: &[u8]) -> io::Result<()> {
    let mut out = [b'.'; ROOM];
    let room = number(line, 1).min(ROOM);
    let answer = aa1_to_aa3(field(line, 2), &mut out[0..room]);
    print_written(stdout, answer, &out, room)
}

// room and names
pub fn answer_letters(stdout: &mut Stdout, line: &[u8]) -> io::Result<()> {
    let mut out = [b'.'; ROOM];
    let room = number(line, 1).min(ROOM);
    let answer = aa3_to_aa1(field(line, 2), &mut out[0..room]);
    print_written(stdout, answer, &out, room)
}

// room and letters
pub fn answer_complement(stdout: &mut Stdout, line: &[u8]) -> io::Result<()> {
    let mut out = [b'.'; ROOM];
    let room = number(line, 1).min(ROOM);
    let answer = revcomp(field(line, 2), &mut out[0..room]);
    print_written(stdout, answer, &out, room)
}

// two byte strings: how many first bytes they share, and how many last ones
pub fn answer_shared(stdout: &mut Stdout, line: &[u8]) -> io::Result<()> {
    let a = word(line, 1);
    let b = field(line, 2);
    print_next(stdout, common_prefix_len(a, b))?;
    print_next(stdout, common_suffix_len(a, b))
}

// the flag (1) or not, the number that a silent record has, R and A
pub fn answer_record(stdout: &mut Stdout, line: &[u8]) -> io::Result<()> {
    let flag = number(line, 1) == 1;
    let n = number(line, 2);
    if 0 < n {
        print_record(stdout, record_from(word(line, 3), field(line, 4), flag, n))?;
    }
    Ok(())
}
