// What is read, as text.
use rules::{Part, Refusal};
use std::io;
use std::io::{Stdout, Write};
use stored::read_stored;
use stored_fields::StoredAt;

pub fn print_number(stdout: &mut Stdout, before: &[u8], n: usize) -> io::Result<()> {
    stdout.write_all(before)?;
    write!(stdout, "{n}")
}

// A refusal, by its number.
pub fn print_refusal(stdout: &mut Stdout, refusal: Refusal) -> io::Result<()> {
    print_number(stdout, b": refused ", refusal.number())
}

fn print_part(stdout: &mut Stdout, before: &[u8], p: Part) -> io::Result<()> {
    print_number(stdout, before, p.at)?;
    print_number(stdout, b"+", p.len)
}

fn print_reference(stdout: &mut Stdout, p: StoredAt) -> io::Result<()> {
    print_number(stdout, b": cs ", p.cds.cs)?;
    print_number(stdout, b" ce ", p.cds.ce)?;
    print_number(stdout, b" table ", p.cds.table)?;
    print_part(stdout, b" letters ", p.letters)?;
    print_part(stdout, b" exceptions ", p.exceptions)?;
    if p.cds.end != 0 {
        print_number(stdout, b" end ", p.cds.end)?;
    }
    Ok(())
}

// A form of this input is shorter than its letters would have to be to go on in a second field: none is joined.
pub fn print_stored(stdout: &mut Stdout, s: &[u8]) -> io::Result<()> {
    let mut joined = [0u8; 1];
    match read_stored(s, &mut joined) {
        Ok(p) => print_reference(stdout, p),
        Err(refusal) => print_refusal(stdout, refusal),
    }
}
