// Names both ways, the complement, and translations of lengths around each limit.
ghost use Rattle.std.specs.Prelude.{◌≡◌};
ghost use Rattle.rules.specs.Bytes.{count as count_of};

use names::{aa1_to_aa3, aa3_to_aa1};
use rules::Refusal;
use sequences::revcomp;
use std::io;
use std::io::{Stdout, Write};
use translation::translate_cds;

// One letter more than a transcript may have, and a residue more than they translate to.
const LETTERS: usize = 16385;

const RESIDUES: usize = 5463;

// The residues that have names, and the letters of their names.
const NAMED: usize = 25;

const NAMES: usize = 75;

pub fn print_number(stdout: &mut Stdout, n: usize) -> io::Result<()> {
    write!(stdout, "{n}")
}

// A refusal, by its number.
pub fn print_refusal(stdout: &mut Stdout, refusal: Refusal) -> io::Result<()> {
    write!(stdout, " refused {}", refusal.number())
}

// What an answer says, behind a space: the bytes that it wrote, or its number.
pub fn print_answer(
    stdout: &mut Stdout,
    answer: Result<usize, Refusal>,
    out: &[u8],
) -> io::Result<()> {
    match answer {
        Ok(n) => {
            stdout.write_all(b" ")?;
            if n <= out.len() {
                stdout.write_all(&out[0..n])?;
            }
        }
        Err(refusal) => print_refusal(stdout, refusal)?,
    }
    stdout.write_all(b"\n")
}

pub fn print_names(stdout: &mut Stdout) -> io::Result<()> {
    let mut three = [0u8; NAMES];
    let answer = aa1_to_aa3(b"ARNDCQEGHILKMFPSTWYVUXBZ*", &mut three);
    stdout.write_all(b"names")?;
    print_answer(stdout, answer, &three)?;
    let mut one = [0u8; NAMED];
    let back = aa3_to_aa1(&three, &mut one);
    stdout.write_all(b"names")?;
    print_answer(stdout, back, &one)
}

pub fn print_complement(stdout: &mut Stdout) -> io::Result<()> {
    let mut out = [0u8; 15];
    let answer = revcomp(b"ACGTRYSWKMBDHVN", &mut out);
    stdout.write_all(b"complement")?;
    print_answer(stdout, answer, &out)
}

// How many of the bytes are b.
pub fn count_of(s: &[u8], b: u8) -> usize
    ensures { result ≡ count_of b s.now }
{
    let mut n = 0;
    for i in 0..s.len() {
        if s[i] == b {
            n += 1;
        }
    }
    n
}

// The number of residues, and how many of a buffer's bytes are K, X and as they were.
fn print_counts(stdout: &mut Stdout, m: usize, out: &[u8]) -> io::Result<()> {
    stdout.write_all(b" residues ")?;
    print_number(stdout, m)?;
    stdout.write_all(b" K ")?;
    print_number(stdout, count_of(out, b'K'))?;
    stdout.write_all(b" X ")?;
    print_number(stdout, count_of(out, b'X'))?;
    stdout.write_all(b" kept ")?;
    print_number(stdout, count_of(out, b'.'))
}

// Translates so many letters A: the number of residues, and how many of them are K and X.
fn print_length(stdout: &mut Stdout, letters: &[u8], n: usize) -> io::Result<()> {
    let mut out = [b'.'; RESIDUES];
    stdout.write_all(b"length ")?;
    print_number(stdout, n)?;
    if letters.len() < n {
        return Ok(());
    }
    match translate_cds(&letters[0..n], 0, false, &mut out) {
        Ok(m) => print_counts(stdout, m, &out)?,
        Err(refusal) => print_refusal(stdout, refusal)?,
    }
    stdout.write_all(b"\n")
}

pub fn print_lengths(stdout: &mut Stdout) -> io::Result<()> {
    let letters = [b'A'; LETTERS];
    for n in 0..7 {
        print_length(stdout, &letters, n)?;
    }
    for n in 16382..16386 {
        print_length(stdout, &letters, n)?;
    }
    Ok(())
}
