// Bad input: the refusal's number, and how many bytes of the buffer of eight stayed as they were.
ghost use Rattle.std.specs.Prelude.{◌≡◌, replicate};

use crate::plain::{count_of, print_number, print_refusal};
use names::{aa1_to_aa3, aa3_to_aa1};
use rules::{Exception, Exceptions, Refusal};
use sequences::revcomp;
use std::io;
use std::io::{Stdout, Write};
use translation::translate_cds_with_exceptions;

fn print_outcome(
    stdout: &mut Stdout,
    name: &[u8],
    answer: Result<usize, Refusal>,
    out: &[u8],
) -> io::Result<()> {
    stdout.write_all(name)?;
    match answer {
        Ok(n) => {
            stdout.write_all(b" writes ")?;
            print_number(stdout, n)?;
        }
        Err(refusal) => print_refusal(stdout, refusal)?,
    }
    stdout.write_all(b" kept ")?;
    print_number(stdout, count_of(out, b'.'))?;
    stdout.write_all(b"\n")
}

fn try_translation(
    stdout: &mut Stdout,
    name: &[u8],
    seq: &[u8],
    table: usize,
    e: Exceptions,
    full: bool,
) -> io::Result<()> {
    let mut out = [b'.'; 8];
    let answer = translate_cds_with_exceptions(seq, table, e, full, &mut out);
    print_outcome(stdout, name, answer, &out)
}

// Sixteen exceptions for a codon, of which so many are given.
fn exceptions(codon: u32, residue: u8, count: usize) -> Exceptions
    ensures { (result.all ≡ replicate 16 (record { codon = codon; residue = residue })) × (result.count ≡ count) }
{
    Exceptions {
        all: [Exception { codon, residue }; 16],
        count,
    }
}

fn print_tables(stdout: &mut Stdout) -> io::Result<()> {
    try_translation(stdout, b"table 3", b"ATG", 3, Exceptions::none(), false)?;
    try_translation(stdout, b"table 255", b"ATG", 255, Exceptions::none(), false)?;
    try_translation(
        stdout,
        b"table 3, no bases",
        b"",
        3,
        Exceptions::none(),
        false,
    )
}

fn print_exceptions(stdout: &mut Stdout) -> io::Result<()> {
    try_translation(
        stdout,
        b"16 exceptions",
        b"ATG",
        0,
        exceptions(1, b'U', 16),
        false,
    )?;
    try_translation(
        stdout,
        b"17 exceptions",
        b"ATG",
        0,
        exceptions(1, b'U', 17),
        false,
    )?;
    try_translation(stdout, b"codon 0", b"ATG", 0, exceptions(0, b'U', 1), false)
}

fn print_residues(stdout: &mut Stdout) -> io::Result<()> {
    try_translation(
        stdout,
        b"codon 2 of one",
        b"ATG",
        0,
        exceptions(2, b'U', 1),
        false,
    )?;
    try_translation(
        stdout,
        b"residue a",
        b"ATG",
        0,
        exceptions(1, b'a', 1),
        false,
    )?;
    try_translation(
        stdout,
        b"residue *",
        b"ATG",
        0,
        exceptions(1, b'*', 1),
        false,
    )
}

fn print_rests(stdout: &mut Stdout) -> io::Result<()> {
    try_translation(
        stdout,
        b"a rest, full codons",
        b"ATGA",
        0,
        Exceptions::none(),
        true,
    )?;
    try_translation(stdout, b"a rest", b"ATGA", 0, Exceptions::none(), false)
}

fn print_lengths(stdout: &mut Stdout) -> io::Result<()> {
    try_translation(
        stdout,
        b"exactly full",
        b"ATGATGATGATGATGATGATGATG",
        0,
        Exceptions::none(),
        false,
    )?;
    try_translation(
        stdout,
        b"one short",
        b"ATGATGATGATGATGATGATGATGA",
        0,
        Exceptions::none(),
        false,
    )?;
    try_translation(
        stdout,
        b"one short, a bad byte",
        b"-TGATGATGATGATGATGATGATGA",
        0,
        Exceptions::none(),
        false,
    )
}

fn print_codons(stdout: &mut Stdout) -> io::Result<()> {
    try_translation(
        stdout,
        b"byte 0 in the last codon",
        b"ATGAT\x00",
        0,
        Exceptions::none(),
        false,
    )?;
    try_translation(
        stdout,
        b"byte 255 in the last codon",
        b"ATGAT\xff",
        0,
        Exceptions::none(),
        false,
    )
}

fn print_ends(stdout: &mut Stdout) -> io::Result<()> {
    try_translation(
        stdout,
        b"byte 0 in the rest",
        b"ATGA\x00",
        0,
        Exceptions::none(),
        false,
    )?;
    try_translation(
        stdout,
        b"byte 255 in the rest",
        b"ATG\xff",
        0,
        Exceptions::none(),
        false,
    )?;
    try_translation(stdout, b"no bases", b"", 0, Exceptions::none(), true)?;
    try_translation(
        stdout,
        b"either case, U as T",
        b"augUAGtrA",
        0,
        Exceptions::none(),
        true,
    )
}

fn print_translations(stdout: &mut Stdout) -> io::Result<()> {
    print_tables(stdout)?;
    print_exceptions(stdout)?;
    print_residues(stdout)?;
    print_rests(stdout)?;
    print_lengths(stdout)?;
    print_codons(stdout)?;
    print_ends(stdout)
}

fn try_names(stdout: &mut Stdout, name: &[u8], one: &[u8]) -> io::Result<()> {
    let mut out = [b'.'; 8];
    let answer = aa1_to_aa3(one, &mut out);
    print_outcome(stdout, name, answer, &out)
}

fn try_letters(stdout: &mut Stdout, name: &[u8], three: &[u8]) -> io::Result<()> {
    let mut out = [b'.'; 8];
    let answer = aa3_to_aa1(three, &mut out);
    print_outcome(stdout, name, answer, &out)
}

fn try_complement(stdout: &mut Stdout, name: &[u8], seq: &[u8]) -> io::Result<()> {
    let mut out = [b'.'; 8];
    let answer = revcomp(seq, &mut out);
    print_outcome(stdout, name, answer, &out)
}

fn print_names(stdout: &mut Stdout) -> io::Result<()> {
    try_names(stdout, b"names of AK", b"AK")?;
    try_names(stdout, b"names of AKW", b"AKW")?;
    try_names(stdout, b"names of J", b"AJ")?;
    try_names(stdout, b"names of a", b"a")?;
    try_names(stdout, b"no names", b"")
}

fn print_letters(stdout: &mut Stdout) -> io::Result<()> {
    try_letters(stdout, b"letters of AlaTer", b"AlaTer")?;
    try_letters(stdout, b"letters of ALA", b"ALA")?;
    try_letters(stdout, b"letters of Pyl", b"AlaPyl")?;
    try_letters(stdout, b"letters of Al", b"AlaAl")?;
    try_letters(stdout, b"letters of nine", b"AlaAlaAlaAlaAlaAlaAlaAlaAla")
}

fn print_complements(stdout: &mut Stdout) -> io::Result<()> {
    try_complement(stdout, b"complement of 8", b"ACGTRYKM")?;
    try_complement(stdout, b"complement of 9", b"ACGTRYKMB")?;
    try_complement(stdout, b"complement of 9, a bad letter", b"ACGTRYKMU")?;
    try_complement(stdout, b"complement of a", b"ACGTa")?;
    try_complement(stdout, b"no complement", b"")
}

pub fn print_refusals(stdout: &mut Stdout) -> io::Result<()> {
    print_translations(stdout)?;
    print_names(stdout)?;
    print_letters(stdout)?;
    print_complements(stdout)
}
