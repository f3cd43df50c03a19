// The fields of a line, counted from 0, one space between them. One that isn't there is empty, and an empty number is 0.
ghost use Rattle.std.specs.Prelude.{◌≡◌, ◌+◌, ◌≤◌, min, length, drop, get_or};
ghost use Rattle.rules.specs.Number.{is_digit};
ghost use Rattle.vectors_calls.specs.Fields.{before, field_at, word_at, with_digit, number_in, number_at, position_in, kind_by, kind_in};

use rules::{Kind, Position};
use text_forms::{signed_by, signs_of};

// How many letters, the CDS, the table; the edit; how many new bases; the lengths of the three buffers; exceptions by rule: how many, their
// residue, and the codon of the last; letters of the reference and their place; new bases and their place; exceptions listed.
pub const LETTERS: usize = 0;

pub const CS: usize = 1;

pub const CE: usize = 2;

pub const TABLE: usize = 3;

pub const KIND: usize = 4;

pub const START: usize = 5;

pub const END: usize = 6;

pub const NEW: usize = 7;

pub const TRANSCRIPT: usize = 8;

pub const REFERENCE: usize = 9;

pub const ALTERED: usize = 10;

pub const COUNT: usize = 11;

pub const RESIDUE: usize = 12;

pub const LAST: usize = 13;

pub const WORD: usize = 14;

pub const PLACE: usize = 15;

pub const NEW_WORD: usize = 16;

pub const NEW_PLACE: usize = 17;

pub const LISTED: usize = 18;

// The byte at a place, 0 behind the end.
pub fn byte_at(s: &[u8], at: usize) -> u8
    ensures { result ≡ get_or s.now at 0 }
{
    if at < s.len() { s[at] } else { 0 }
}

// Where the bytes before the next `b` end, from a place on.
pub fn end_of(s: &[u8], from: usize, b: u8) -> usize
    requires { from ≤ length s.now }
    ensures value { result ≡ from + before b (drop from s.now) }
    ensures within { result ≤ length s.now }
{
    for i in from..s.len() {
        if s[i] == b {
            return i;
        }
    }
    s.len()
}

// The place behind another, but not behind the end.
fn behind(at: usize, end: usize) -> usize
    ensures { result ≡ min (at + 1) end }
{
    if at < end { at + 1 } else { end }
}

// Where a field begins.
fn field_start(s: &[u8], k: usize) -> usize
    ensures s_value { drop result s.now ≡ field_at k s.now }
    ensures within { result ≤ length s.now }
{
    let mut at = 0;
    let mut left = k;
    // Kept: no for, since the invariant is of how many fields are left.
    while 0 < left {
        at = behind(end_of(s, at, b' '), s.len());
        left -= 1;
    }
    at
}

// The line from a field on.
pub fn field(s: &[u8], k: usize) -> &[u8]
    ensures { result.now ≡ field_at k s.now }
{
    let start = field_start(s, k);
    &s[start..]
}

// A field alone.
pub fn word(s: &[u8], k: usize) -> &[u8]
    ensures { result.now ≡ word_at k s.now }
{
    let f = field(s, k);
    let end = end_of(f, 0, b' ');
    &f[0..end]
}

#[tactic(auto, unfolding(rules::specs::Number::is_digit))]
fn is_digit(b: u8) -> bool
    ensures { result ≡ is_digit b }
{
    b.is_ascii_digit()
}

// The number with a digit behind it. Above 18446744073709551609 it is the largest number.
fn with_digit(n: usize, d: usize) -> usize
    requires { d ≤ 9 }
    ensures { result ≡ with_digit n d }
{
    if n <= 1844674407370955160 {
        n * 10 + d
    } else {
        usize::MAX
    }
}

// The number whose digits begin at a place.
fn number_from(s: &[u8], from: usize) -> usize
    ensures { result ≡ number_in (drop from s.now) }
{
    let mut n = 0;
    for i in from..s.len() {
        let b = s[i];
        if !is_digit(b) {
            return n;
        }
        n = with_digit(n, usize::from(b - b'0'));
    }
    n
}

pub fn number(s: &[u8], k: usize) -> usize
    ensures { result ≡ number_at k s.now }
{
    number_from(field(s, k), 0)
}

pub fn position(s: &[u8], k: usize) -> Position
    ensures { result ≡ position_in (field_at k s.now) }
{
    let f = field(s, k);
    let sign = byte_at(f, 0);
    let n = number_from(f, signs_of(sign));
    signed_by(sign, n)
}

// The words sub, del, delins, ins, dup, inv and same are told by their third letter, del and delins by the fourth.
fn kind_by(third: u8, fourth: u8) -> Kind
    ensures { result ≡ kind_by third fourth }
{
    match third {
        b'b' => Kind::Substitution,
        b'l' => match fourth {
            b'i' => Kind::Delins,
            _ => Kind::Deletion,
        },
        b's' => Kind::Insertion,
        b'p' => Kind::Duplication,
        b'v' => Kind::Inversion,
        b'm' => Kind::Identity,
        _ => Kind::Other,
    }
}

pub fn kind(s: &[u8], k: usize) -> Kind
    ensures { result ≡ kind_in (field_at k s.now) }
{
    let f = field(s, k);
    kind_by(byte_at(f, 2), byte_at(f, 3))
}
