// The codons of a table: the 64 plain ones, the 3,375 of the fifteen letters, and the table beside the plain reader.
ghost use Rattle.std.specs.Prelude.{◌≡◌, false, ◌<◌, length};
ghost use Rattle.codons.specs.Tables.{HoldsCode};
ghost use Rattle.vectors_plain.specs.Rows.{number_at, letters_from};

use crate::plain::{count_of, print_answer, print_number};
use codon_reader::read_codon;
use codons::tables::residue_in;
use std::io;
use std::io::{Stdout, Write};
use tables::residues_of;
use translation::translate_cds;

// The codons of the fifteen letters, and their letters.
const CODONS: usize = 3375;

const CODONS_LETTERS: usize = 10125;

// The places of a table.
const PLACES: usize = 4096;

// First base slowest, order T, C, A, G.
const PLAIN: [u8; 192] = *b"\
    TTTTTCTTATTGTCTTCCTCATCGTATTACTAATAGTGTTGCTGATGG\
    CTTCTCCTACTGCCTCCCCCACCGCATCACCAACAGCGTCGCCGACGG\
    ATTATCATAATGACTACCACAACGAATAACAAAAAGAGTAGCAGAAGG\
    GTTGTCGTAGTGGCTGCCGCAGCGGATGACGAAGAGGGTGGCGGAGGG";

fn print_code(stdout: &mut Stdout, table: usize) -> io::Result<()> {
    let seq = PLAIN;
    let mut out = [0u8; 64];
    let answer = translate_cds(&seq, table, true, &mut out);
    stdout.write_all(b"code ")?;
    print_number(stdout, table)?;
    print_answer(stdout, answer, &out)
}

// Which of the fifteen letters stands at a place of all their codons in a row, first letter slowest.
fn number_at(j: usize) -> usize
    requires { j < 10125 }
    ensures value { result ≡ number_at j }
    ensures within { result < 15 }
{
    match j % 3 {
        0 => j / 675,
        1 => j / 45 % 15,
        _ => j / 3 % 15,
    }
}

// All codons of the fifteen letters.
fn put_codons(seq: &mut [u8])
    requires { length seq.old ≡ 10125 }
    ensures { seq.new ≡ letters_from 0 10125 }
{
    let letters = *b"ACGTRYSWKMBDHVN";
    for j in 0..CODONS_LETTERS {
        let k = number_at(j);
        seq[j] = letters[k];
    }
}

// How often a residue occurs, unless it doesn't.
fn print_count(stdout: &mut Stdout, residues: &[u8], b: u8) -> io::Result<()> {
    let n = count_of(residues, b);
    if 0 < n {
        let one = [b; 1];
        stdout.write_all(b" ")?;
        stdout.write_all(&one)?;
        print_number(stdout, n)?;
    }
    Ok(())
}

// The number of each residue that occurs.
fn print_counts(stdout: &mut Stdout, residues: &[u8]) -> io::Result<()> {
    for b in b'!'..=b'Z' {
        print_count(stdout, residues, b)?;
    }
    stdout.write_all(b"\n")
}

fn print_ambiguous(stdout: &mut Stdout, table: usize) -> io::Result<()> {
    let mut seq = [0u8; CODONS_LETTERS];
    put_codons(&mut seq);
    let mut out = [0u8; CODONS];
    let answer = translate_cds(&seq, table, true, &mut out);
    stdout.write_all(b"ambiguous ")?;
    print_number(stdout, table)?;
    print_answer(stdout, answer, &out)?;
    stdout.write_all(b"counts ")?;
    print_number(stdout, table)?;
    print_counts(stdout, &out)
}

// Whether the table and the plain reader differ at a place of the table, which they never do.
fn differs(table: usize, residues: &[u8; 4096], k: usize) -> bool
    requires holds_code { HoldsCode table residues.now }
    requires table_bound { (table < 3) × (k < 4096) }
    ensures { result ≡ false }
{
    let a = k / 256;
    let b = k / 16 % 16;
    let c = k % 16;
    if a == 0 || b == 0 || c == 0 {
        return false;
    }
    residue_in(table, residues, a, b, c) != read_codon(table, a, b, c)
}

// At how many places they differ.
fn differing(table: usize) -> usize
    requires { table < 3 }
    ensures { result ≡ 0 }
{
    let residues = residues_of(table);
    let mut n = 0;
    for k in 0..PLACES {
        if differs(table, &residues, k) {
            n += 1;
        }
    }
    n
}

pub fn print_table(stdout: &mut Stdout, table: usize) -> io::Result<()>
    requires { table < 3 }
{
    print_code(stdout, table)?;
    print_ambiguous(stdout, table)?;
    stdout.write_all(b"reader ")?;
    print_number(stdout, table)?;
    stdout.write_all(b" ")?;
    print_number(stdout, differing(table))?;
    stdout.write_all(b"\n")
}
