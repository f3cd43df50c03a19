// Calls of the library: each line of the file stdin beside src/ is one, and is printed with its answer. The gate holds the file stdout beside it to
// what is printed.
//
// Where that file's answers come from: tests/calls, by an account of document 01 in another language (tests/account), which reads the same
// lines and makes the letters by the same rule.
#![tactic(auto)]

mod edit_calls;
mod fields;
mod given_exceptions;
mod given_letters;
mod plain;
mod printing;

ghost use Rattle.std.specs.Prelude.{◌≤◌, length};

use crate::edit_calls::answer_edit;
use crate::fields::{byte_at, end_of};
use crate::plain::{
    answer_complement, answer_letters, answer_names, answer_record, answer_shared,
    answer_translation,
};
use crate::printing::print;
use std::io;
use std::io::{Read, Stdout};

// The most bytes of input that are read.
const INPUT_ROOM: usize = 65536;

// By the first byte: the words translation, names, letters, complement, shared and record name a function, and a number begins an edit.
fn answer(stdout: &mut Stdout, line: &[u8]) -> io::Result<()> {
    let first = byte_at(line, 0);
    print(stdout, b":")?;
    match first {
        b't' => answer_translation(stdout, line),
        b'n' => answer_names(stdout, line),
        b'l' => answer_letters(stdout, line),
        b'c' => answer_complement(stdout, line),
        b's' => answer_shared(stdout, line),
        b'r' => answer_record(stdout, line),
        _ => answer_edit(stdout, line),
    }
}

// A line that begins with # is a heading.
fn answer_line(stdout: &mut Stdout, line: &[u8]) -> io::Result<()> {
    print(stdout, line)?;
    if byte_at(line, 0) != b'#' {
        answer(stdout, line)?;
    }
    print(stdout, b"\n")
}

fn answer_lines(stdout: &mut Stdout, s: &[u8]) -> io::Result<()>
    requires { length s.now ≤ 65536 }
{
    let mut at = 0;
    // Kept: no for, since each turn finds where the next line begins.
    while at < s.len() {
        let end = end_of(s, at, b'\n');
        answer_line(stdout, &s[at..end])?;
        at = end + 1;
    }
    Ok(())
}

fn main(rt: HostRuntime) -> io::Result<()> {
    let mut input = Vec::new(rt.alloc());
    rt.reader().take(INPUT_ROOM as u64).read_to_end(&mut input)?;
    let n = input.len().min(INPUT_ROOM);
    answer_lines(&mut rt.stdout(), &input[..n])
}
