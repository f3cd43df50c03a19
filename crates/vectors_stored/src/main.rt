// Stored references of standard input, a line each: what is read, or the refusal, or what an edit of the reference is answered. The gate runs it
// on the file stdin beside src/ and holds the file stdout to what it prints.
//
// Where these files come from: tests/stored makes the cases and, by an account of document 01 in another language (tests/account), the answers.
//
// The input is strings, each behind the two bytes of its length, high byte first: a name, the stored bytes, and an edit, or nothing.
#![tactic(auto)]

mod answers;
mod stored_edits;

ghost use Rattle.std.specs.Prelude.{◌≤◌, length, IfOk};

use answers::print_stored;
use byte_numbers::two_bytes;
use std::io;
use std::io::{Read, Stdin, Stdout, Write};
use stored_edits::print_edit;

// The longest name, stored bytes and edit, and the most cases.
const NAME_ROOM: usize = 256;

const FORM_ROOM: usize = 65536;

const EDIT_ROOM: usize = 256;

const MOST_CASES: usize = 65536;

// Reads until the buffer is full or the input ends, and returns how many bytes it put at the buffer's start.
fn read_full(stdin: &mut Stdin, space: &mut [u8]) -> io::Result<usize>
    ensures { IfOk result (λ n. n ≤ length space.new) }
{
    let mut done = 0;
    // Kept: no for, since each turn reads as much as comes.
    while done < space.len() {
        let n = stdin.read(&mut space[done..])?;
        if n == 0 {
            break;
        }
        done += n;
    }
    Ok(done)
}

// The next string, in the buffer; none where the input has ended or the buffer is too short.
fn read_string(stdin: &mut Stdin, space: &mut [u8]) -> io::Result<usize>
    ensures { IfOk result (λ n. n ≤ length space.new) }
{
    let mut head = [0u8; 2];
    if read_full(stdin, &mut head)? < 2 {
        return Ok(0);
    }
    let n = two_bytes(&head, 0);
    if space.len() < n {
        return Ok(0);
    }
    read_full(stdin, &mut space[0..n])
}

// One line; false where no name is left.
fn print_next(
    stdin: &mut Stdin,
    stdout: &mut Stdout,
    name: &mut [u8],
    form: &mut [u8],
    edit: &mut [u8],
) -> io::Result<bool> {
    let n = read_string(stdin, name)?;
    if n == 0 {
        return Ok(false);
    }
    let m = read_string(stdin, form)?;
    let k = read_string(stdin, edit)?;
    stdout.write_all(&name[0..n])?;
    if k == 0 {
        print_stored(stdout, &form[0..m])?;
    } else {
        print_edit(stdout, &form[0..m], &edit[0..k])?;
    }
    stdout.write_all(b"\n")?;
    Ok(true)
}

fn main(rt: HostRuntime) -> io::Result<()> {
    let mut stdin = rt.stdin();
    let mut stdout = rt.stdout();
    let mut name = [0u8; NAME_ROOM];
    let mut form = [0u8; FORM_ROOM];
    let mut edit = [0u8; EDIT_ROOM];
    for _ in 0..MOST_CASES {
        if !print_next(&mut stdin, &mut stdout, &mut name, &mut form, &mut edit)? {
            break;
        }
    }
    Ok(())
}
