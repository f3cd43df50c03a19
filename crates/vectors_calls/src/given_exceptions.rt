// The exceptions that a line gives.
ghost use Rattle.std.specs.Prelude.{◌≡◌, ◌+◌, ◌<◌, ◌≤◌, min, eqb, if◌then◌else◌};
ghost use Rattle.vectors_calls.specs.Given.{by_rule, listed, exception_at, exceptions_of};

use crate::fields;
use crate::fields::{byte_at, field, number};
use rules::{Exception, Exceptions};

// 1, 2, 3 and so on, but for the last of so many a codon of its own.
fn codon_of(count: usize, i: usize, last: usize) -> usize
    requires { i < 16 }
    ensures { result ≡ (if eqb (i + 1) count then last else (i + 1)) }
{
    if i + 1 == count { last } else { i + 1 }
}

// A codon's number in four bytes. Above them it is their largest.
fn codon_in(n: usize) -> u32
    ensures { result ≡ min n 4294967295 }
{
    n.min(4294967295) as u32
}

// By rule: with one residue.
fn by_rule(line: &[u8], count: usize, i: usize) -> Exception
    requires { i < 16 }
    ensures { result ≡ by_rule line.now count i }
{
    let codon = codon_in(codon_of(count, i, number(line, fields::LAST)));
    let residue = byte_at(field(line, fields::RESIDUE), 0);
    Exception { codon, residue }
}

// Listed: a codon and a residue, each a field.
fn listed_at(line: &[u8], first: usize, i: usize) -> Exception
    requires { (first ≤ 18) × (i < 16) }
    ensures { result ≡ listed line.now first i }
{
    let at = first + 2 * i;
    let codon = codon_in(number(line, at));
    let residue = byte_at(field(line, at + 1), 0);
    Exception { codon, residue }
}

// Number i, counted from 0, of those listed from a field on; by rule where that is 0.
fn exception_at(line: &[u8], first: usize, count: usize, i: usize) -> Exception
    requires { (first ≤ 18) × (i < 16) }
    ensures { result ≡ exception_at line.now first count i }
{
    if first == 0 {
        by_rule(line, count, i)
    } else {
        listed_at(line, first, i)
    }
}

// At most sixteen of them fit.
pub fn exceptions_of(line: &[u8], first: usize, count: usize) -> Exceptions
    requires { first ≤ 18 }
    ensures { result ≡ exceptions_of line.now first count }
{
    let mut all = [Exception {
        codon: 0,
        residue: 0,
    }; 16];
    let stored = count.min(16);
    for i in 0..stored {
        all[i] = exception_at(line, first, count, i);
    }
    Exceptions { all, count }
}
