// What is answered, behind a colon: the record or the refusal, the flag, and what each of the three buffers holds.
ghost use Rattle.std.specs.Prelude.{◌≡◌, drop};
ghost use Rattle.vectors_calls.specs.Printed.{check_value, are_markers};

use rules::{Change, Class, Part, Record, Refusal, Report};
use std::io;
use std::io::{Stdout, Write};

// One more than any answer takes.
pub const TRANSCRIPT_ROOM: usize = 32769;

pub const REFERENCE_ROOM: usize = 5462;

pub const ALTERED_ROOM: usize = 10924;

// Room for a space and the word for a class.
const WORD: usize = 16;

pub fn print(stdout: &mut Stdout, s: &[u8]) -> io::Result<()> {
    stdout.write_all(s)
}

fn print_number(stdout: &mut Stdout, n: usize) -> io::Result<()> {
    write!(stdout, "{n}")
}

// The number behind a space.
pub fn print_next(stdout: &mut Stdout, n: usize) -> io::Result<()> {
    print(stdout, b" ")?;
    print_number(stdout, n)
}

// A refusal, by its number.
pub fn print_refusal(stdout: &mut Stdout, refusal: Refusal) -> io::Result<()> {
    print(stdout, b" refused")?;
    print_next(stdout, refusal.number())
}

// The word for a class behind a space, both at once.
fn print_class(stdout: &mut Stdout, class: Class) -> io::Result<()> {
    let name = class.name();
    let size = name.len().min(WORD - 1);
    let mut word = [b' '; WORD];
    bytewise::copy(&name[..size], &mut word[1..]);
    print(stdout, &word[..size + 1])
}

fn print_part(stdout: &mut Stdout, part: Part) -> io::Result<()> {
    print_next(stdout, part.at)?;
    print_next(stdout, part.len)
}

fn print_change(stdout: &mut Stdout, change: Change) -> io::Result<()> {
    print_class(stdout, change.class)?;
    print_next(stdout, change.number)?;
    print(stdout, b" deleted")?;
    print_part(stdout, change.deleted)?;
    print(stdout, b" inserted")?;
    print_part(stdout, change.inserted)?;
    print(stdout, b" first")?;
    print_next(stdout, change.first)
}

pub fn print_record(stdout: &mut Stdout, found: Record) -> io::Result<()> {
    match found {
        Record::Unknown => print(stdout, b" unknown"),
        Record::NoProtein => print(stdout, b" no-protein"),
        Record::Silent { number, residue } => {
            let one = [residue; 1];
            print(stdout, b" silent")?;
            print_next(stdout, number)?;
            print(stdout, b" ")?;
            print(stdout, &one)
        }
        Record::Changed(change) => print_change(stdout, change),
    }
}

// A check value of bytes in their order.
fn value_of(s: &[u8]) -> usize
    ensures { result ≡ check_value s.now }
{
    let mut x = 0;
    for i in 0..s.len() {
        x = (x * 31 + usize::from(s[i])) % 1000003;
    }
    x
}

// Whether the bytes from a place on are the marker's.
fn keeps(s: &[u8], from: usize) -> bool
    ensures { result ≡ are_markers (drop from s.now) }
{
    for i in from..s.len() {
        if s[i] != b'.' {
            return false;
        }
    }
    true
}

fn print_report(stdout: &mut Stdout, report: Report) -> io::Result<()> {
    let found = report.found;
    print_record(stdout, found)?;
    if report.frameshift {
        print(stdout, b" shifted")?;
    }
    Ok(())
}

// How many bytes were written, their check value, and whether the others stayed.
fn print_buffer(stdout: &mut Stdout, s: &[u8], n: usize) -> io::Result<()> {
    print(stdout, b",")?;
    print_next(stdout, n)?;
    if n <= s.len() {
        print_next(stdout, value_of(&s[0..n]))?;
    }
    if keeps(s, n) {
        print(stdout, b" kept")?;
    } else {
        print(stdout, b" changed")?;
    }
    Ok(())
}

// How many bytes were written to each buffer.
#[derive(Clone, Copy)]
struct Lengths {
    transcript: usize,
    reference: usize,
    altered: usize,
}

fn print_buffers(
    stdout: &mut Stdout,
    transcript: &[u8],
    reference: &[u8],
    altered: &[u8],
    n: Lengths,
) -> io::Result<()> {
    print_buffer(stdout, transcript, n.transcript)?;
    print_buffer(stdout, reference, n.reference)?;
    print_buffer(stdout, altered, n.altered)
}

pub fn print_answer(
    stdout: &mut Stdout,
    answer: Result<Report, Refusal>,
    transcript: &[u8; TRANSCRIPT_ROOM],
    reference: &[u8; REFERENCE_ROOM],
    altered: &[u8; ALTERED_ROOM],
) -> io::Result<()> {
    match answer {
        Err(refusal) => {
            print_refusal(stdout, refusal)?;
            let none = Lengths {
                transcript: 0,
                reference: 0,
                altered: 0,
            };
            print_buffers(stdout, transcript, reference, altered, none)
        }
        Ok(report) => {
            print_report(stdout, report)?;
            let written = Lengths {
                transcript: report.transcript,
                reference: report.reference,
                altered: report.altered,
            };
            print_buffers(stdout, transcript, reference, altered, written)
        }
    }
}
