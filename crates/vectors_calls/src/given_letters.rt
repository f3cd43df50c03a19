// The letters of a reference and the new bases: by rule, and those that the line says.
ghost use Rattle.std.specs.Prelude.{◌≡◌, List, ◌≤◌, ◌<◌, ltb, length, replicate, if◌then◌else◌};
ghost use Rattle.rules.specs.Bytes.{over};
ghost use Rattle.vectors_calls.specs.Letters.{next as next_number, filled, laid, laid_at, place_before, coding_in, reference_in, new_in};

use crate::fields;
use crate::fields::{number, word};

// One letter more than a transcript may have, and one new base more than an edit may have.
pub const LETTERS_ROOM: usize = 16385;

pub const NEW_ROOM: usize = 4097;

fn pick(x: usize, a: u8, b: u8) -> u8
    ensures { result ≡ (if ltb x 32768 then a else b) }
{
    if x < 32768 { a } else { b }
}

// The next number of a row in which each below 65,536 comes once.
fn next(x: usize) -> usize
    requires { x < 65536 }
    ensures value { result ≡ next_number x }
    ensures below { result < 65536 }
{
    (x * 25173 + 13849) % 65536
}

// Either letter, in no order, so that no long part is like another.
fn fill(out: &mut [u8], a: u8, b: u8)
    ensures { out.new ≡ filled a b 1 (length out.old) }
{
    let mut x = 1;
    for i in 0..out.len() {
        out[i] = pick(x, a, b);
        x = next(x);
    }
}

// A letter, or the one that stands there where it is `-`.
fn letter_or(b: u8, kept: u8) -> u8
    ensures { result ≡ (if ltb 45 b then b else kept) }
{
    if b'-' < b { b } else { kept }
}

// Letters over the first of others, as many as there are.
fn lay(out: &mut [u8], letters: &[u8])
    ensures { out.new ≡ laid letters.now out.old }
{
    let n = out.len().min(letters.len());
    for i in 0..n {
        let kept = out[i];
        out[i] = letter_or(letters[i], kept);
    }
}

// From a place on, as far as they are inside.
fn lay_at(out: &mut [u8], at: usize, letters: &[u8])
    ensures { out.new ≡ laid_at at letters.now out.old }
{
    if at < out.len() {
        lay(&mut out[at..], letters);
    }
}

// So many places before a place, or none.
fn place_before(n: usize, back: usize) -> usize
    ensures { result ≡ place_before n back }
{
    if back <= n { n - back } else { usize::MAX }
}

// ATG from cs on and TAA up to ce; around them A or C, of which no table makes a stop.
fn write_cds(line: &[u8], out: &mut [u8])
    ensures { out.new ≡ coding_in line.now (length out.old) }
{
    let start = place_before(number(line, fields::CS), 1);
    let stop = place_before(number(line, fields::CE), 3);
    fill(out, b'A', b'C');
    lay_at(out, start, b"ATG");
    lay_at(out, stop, b"TAA");
}

// Then the line's own letters.
fn write_reference(line: &[u8], out: &mut [u8])
    ensures { out.new ≡ reference_in line.now (length out.old) }
{
    write_cds(line, out);
    lay_at(out, number(line, fields::PLACE), word(line, fields::WORD));
}

// The first `n` bytes are the letters of a line's reference.
pub fn reference_of(line: &[u8], n: usize) -> [u8; LETTERS_ROOM]
    requires { n ≤ 16385 }
    ensures { result ≡ over (reference_in line.now n) (replicate 16385 46) }
{
    let mut letters = [b'.'; LETTERS_ROOM];
    write_reference(line, &mut letters[0..n]);
    letters
}

// C or G, of which no table makes a stop either, and the line's own letters.
fn write_new(line: &[u8], out: &mut [u8])
    ensures { out.new ≡ new_in line.now (length out.old) }
{
    fill(out, b'C', b'G');
    lay_at(
        out,
        number(line, fields::NEW_PLACE),
        word(line, fields::NEW_WORD),
    );
}

// The first `n` bytes are a line's new bases.
pub fn new_of(line: &[u8], n: usize) -> [u8; NEW_ROOM]
    requires { n ≤ 4097 }
    ensures { result ≡ over (new_in line.now n) (replicate 4097 46) }
{
    let mut new = [b'.'; NEW_ROOM];
    write_new(line, &mut new[0..n]);
    new
}
