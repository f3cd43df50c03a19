// What stands behind the positions of an edit line: the kind and its new bases.
#![tactic(auto)]

ghost use Rattle.std.specs.Prelude.{◌≡◌, ◌&&◌, ◌≤◌, length, drop};
ghost use Rattle.rules.specs.Line.{are_capitals, starts_with, is_arrow, base_verb, verb};
ghost use Rattle.text_verbs.specs.Views.{word_kind, verb_in, verb_next};

use bytewise::all_bytes;
use letters::is_capital;
use rules::Kind;

// The new bases are the line from `at` on.
#[derive(Clone, Copy)]
pub struct VerbAt {
    pub kind: Kind,
    pub at: usize,
}

// One or more bytes A to Z; a wrong one is left to 2 and 10.
pub fn are_capitals(s: &[u8]) -> bool
    ensures { result ≡ are_capitals s.now }
{
    !s.is_empty() && all_bytes(s, is_capital)
}

pub fn starts_with(word: &[u8], s: &[u8]) -> bool
    ensures { result ≡ starts_with word.now s.now }
{
    s.starts_with(word)
}

// A word with bases behind it.
fn has_bases(word: &[u8], s: &[u8]) -> bool
    ensures { result ≡ (starts_with word.now s.now && are_capitals (drop (length word.now) s.now)) }
{
    starts_with(word, s) && are_capitals(&s[word.len()..])
}

// `A>G`: in a substitution one byte on each side.
fn is_arrow(s: &[u8]) -> bool
    ensures { result ≡ is_arrow s.now }
{
    s.len() == 3 && s[1] == b'>' && is_capital(s[0]) && is_capital(s[2])
}

// A kind with new bases, from a place of a line to its end.
fn parse_base_verb(line: &[u8], at: usize) -> Option<VerbAt>
    requires { at ≤ length line.now }
    ensures result_value { verb_in line.now result ≡ base_verb (drop at line.now) }
    ensures within { verb_next result ≤ length line.now }
{
    let s = &line[at..];
    if has_bases(b"delins", s) {
        return Some(VerbAt {
            kind: Kind::Delins,
            at: at + 6,
        });
    }
    if has_bases(b"ins", s) {
        return Some(VerbAt {
            kind: Kind::Insertion,
            at: at + 3,
        });
    }
    if is_arrow(s) {
        return Some(VerbAt {
            kind: Kind::Substitution,
            at: at + 2,
        });
    }
    None
}

// A kind that has no new bases.
#[tactic(auto, using(std::proofs::lemmas::Bool::Decides::nat_tests, crate::proofs::Verbs::same_one, crate::proofs::Verbs::same_three))]
fn word_kind(s: &[u8]) -> Option<Kind>
    ensures { result ≡ word_kind s.now }
{
    match s {
        b"del" => Some(Kind::Deletion),
        b"dup" => Some(Kind::Duplication),
        b"inv" => Some(Kind::Inversion),
        b"=" => Some(Kind::Identity),
        _ => None,
    }
}

// A kind, from a place of a line to its end.
pub fn parse_verb(line: &[u8], at: usize) -> Option<VerbAt>
    requires { at ≤ length line.now }
    ensures result_value { verb_in line.now result ≡ verb (drop at line.now) }
    ensures within { verb_next result ≤ length line.now }
{
    match word_kind(&line[at..]) {
        Some(kind) => Some(VerbAt {
            kind,
            at: line.len(),
        }),
        None => parse_base_verb(line, at),
    }
}
