// Every byte and many numbers: which of them are letters, residues and tables.
use crate::plain::print_number;
use rules::{Exception, Exceptions};
use sequences::revcomp;
use std::io;
use std::io::{Stdout, Write};
use translation::{translate_cds, translate_cds_with_exceptions};

const TABLES: usize = 300;

// The letter opposite a byte, unless that is refused.
fn print_opposite(stdout: &mut Stdout, b: u8) -> io::Result<()> {
    let one = [b; 1];
    let mut out = [0u8; 1];
    if revcomp(&one, &mut out).is_ok() {
        stdout.write_all(b" ")?;
        stdout.write_all(&one)?;
        stdout.write_all(&out)?;
    }
    Ok(())
}

// The residue of a codon of one byte, unless that is refused.
fn print_residue(stdout: &mut Stdout, b: u8) -> io::Result<()> {
    let one = [b; 1];
    let codon = [b; 3];
    let mut out = [0u8; 1];
    if translate_cds(&codon, 0, true, &mut out).is_ok() {
        stdout.write_all(b" ")?;
        stdout.write_all(&one)?;
        stdout.write_all(&out)?;
    }
    Ok(())
}

// A byte that an exception may have as its residue.
fn print_exception(stdout: &mut Stdout, b: u8) -> io::Result<()> {
    let mut out = [0u8; 1];
    let e = Exceptions {
        all: [Exception {
            codon: 1,
            residue: b,
        }; 16],
        count: 1,
    };
    if translate_cds_with_exceptions(b"ATG", 0, e, true, &mut out).is_ok() {
        stdout.write_all(&out)?;
    }
    Ok(())
}

// Every byte, as one of the three prints it.
fn print_each<P: Fn(&mut Stdout, u8) -> io::Result<()>>(
    stdout: &mut Stdout,
    name: &[u8],
    print: P,
) -> io::Result<()>
    requires { P.IsAlwaysCallable print }
{
    stdout.write_all(name)?;
    for b in 0..=255u8 {
        print(stdout, b)?;
    }
    stdout.write_all(b"\n")
}

// A number that is a table.
fn print_table(stdout: &mut Stdout, table: usize) -> io::Result<()> {
    let mut out = [0u8; 1];
    if translate_cds(b"", table, true, &mut out).is_ok() {
        stdout.write_all(b" ")?;
        print_number(stdout, table)?;
    }
    Ok(())
}

fn print_tables(stdout: &mut Stdout) -> io::Result<()> {
    stdout.write_all(b"tables")?;
    for table in 0..TABLES {
        print_table(stdout, table)?;
    }
    stdout.write_all(b"\n")
}

pub fn print_bytes(stdout: &mut Stdout) -> io::Result<()> {
    print_each(stdout, b"opposite", print_opposite)?;
    print_each(stdout, b"thrice", print_residue)?;
    print_each(stdout, b"exceptions ", print_exception)?;
    print_tables(stdout)
}
