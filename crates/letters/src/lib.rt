// Letters as sets of bases, and their complements. The two readings of letters: plain translation takes either case, and U as T; transcripts and
// edits take the fifteen upper-case letters alone.
//
// A table is loaded once, by the function that returns it, and lent from there: a constant that is indexed in a loop is laid out anew at each use.
#![tactic(auto)]

pub mod complement;

ghost use Rattle.std.specs.Prelude.{◌≡◌, true, ◌<◌, if◌then◌else◌};
ghost use Rattle.rules.specs.Bytes.{is_capital};
ghost use Rattle.rules.specs.Letters.{letter_set, is_letter, folded};
ghost use Rattle.rules.specs.Translation.{is_residue};
ghost use Rattle.letters.specs.Sets.{HoldsSets, folded_set, folds_to_base, is_base};

// The set of an upper-case letter, and 0 of any other byte.
#[tactic(auto, unfolding(rules::specs::Letters::letter_set))]
pub fn letter_set(b: u8) -> usize
    ensures value { result ≡ letter_set b }
    ensures small { result < 16 }
{
    match b {
        b'A' => 1,
        b'C' => 2,
        b'G' => 4,
        b'T' => 8,
        b'R' => 5,
        b'Y' => 10,
        b'S' => 6,
        b'W' => 9,
        b'K' => 12,
        b'M' => 3,
        b'B' => 14,
        b'D' => 13,
        b'H' => 11,
        b'V' => 7,
        b'N' => 15,
        _ => 0,
    }
}

// Whether a byte is A to Z.
#[tactic(auto, unfolding(rules::specs::Bytes::is_capital))]
pub fn is_capital(b: u8) -> bool
    ensures { result ≡ is_capital b }
{
    b.is_ascii_uppercase()
}

// Whether a byte is a residue: A to Z or `*`.
#[tactic(auto, unfolding(rules::specs::Translation::is_residue))]
pub fn is_residue(r: u8) -> bool
    ensures { result ≡ is_residue r }
{
    is_capital(r) | (r == b'*')
}

// The tests below have no table and no branch, so that a loop of one goes many bytes at a time.

// Whether plain translation takes a byte: A to Y of either case, but for E, F, I, J, L, O, P, Q, X.
pub fn folds_to_letter(b: u8) -> bool
    ensures { result ≡ is_letter (folded b) }
{
    let u = b & 223;
    let within = (b'A' <= u) & (u <= b'Y');
    let efij = ((u + 3) & 250) == b'H';
    let opq = (b'O' <= u) & (u <= b'Q');
    within & !efij & !opq & (u != b'L') & (u != b'X')
}

// Whether plain translation takes a byte for one base: A, C, G, T, U, of either case.
pub fn folds_to_base(b: u8) -> bool
    ensures { result ≡ folds_to_base b }
{
    let u = b & 223;
    (u == b'A') | (u == b'C') | (u == b'G') | (u == b'T') | (u == b'U')
}

// Whether a letter of plain translation stands for one base: its place in the alphabet is none of the other letters'.
pub fn is_base_letter(b: u8) -> bool
    requires { is_letter (folded b) ≡ true }
    ensures { result ≡ folds_to_base b }
{
    let places: u32 = 0x2cc6914;
    (places >> (b % 32)) % 2 == 0
}

// The sets of letters by their places in the alphabet, four bits each, the first lowest: of the places 0 to 15, and from 16 on.
fn sets_of_half(first: bool) -> usize
    ensures { result ≡ (if first then 0x0f30c00b400d2e10 else 0x000000a097886500) }
{
    if first {
        0x0f30c00b400d2e10
    } else {
        0x000000a097886500
    }
}

// The set of a letter of plain translation, without the table of all.
pub fn set_of_letter(b: u8) -> usize
    requires { is_letter (folded b) ≡ true }
    ensures value { result ≡ folded_set b }
    ensures small { result < 16 }
{
    let place = b % 32;
    (sets_of_half(place < 16) >> (place % 16 * 4)) % 16
}

// Whether transcripts and edits take a byte: an upper-case letter of plain translation, but not U.
pub fn is_letter(b: u8) -> bool
    ensures { result ≡ is_letter b }
{
    (b / 32 == 2) & (b != b'U') & folds_to_letter(b)
}

// Whether a byte is one of A, C, G and T, which transcripts and edits take for one base.
pub fn is_base(b: u8) -> bool
    ensures { result ≡ is_base b }
{
    (b == b'A') | (b == b'C') | (b == b'G') | (b == b'T')
}

// The sets of all bytes in plain translation.
pub fn folded_sets() -> [u8; 256]
    ensures { HoldsSets folded_set result }
{
    FOLDED
}

// The set of a byte in plain translation, from the sets of all.
pub fn folded_set(sets: &[u8; 256], b: u8) -> usize
    requires { HoldsSets folded_set sets.now }
    ensures value { result ≡ folded_set b }
    ensures small { result < 16 }
{
    usize::from(sets[usize::from(b)])
}

// The set of each byte in plain translation, sixteen bytes a line.
const FOLDED: [u8; 256] = *b"\
    \x00\x00\x00\x00\x00\x00\x00\x00\x00\x00\x00\x00\x00\x00\x00\x00\
    \x00\x00\x00\x00\x00\x00\x00\x00\x00\x00\x00\x00\x00\x00\x00\x00\
    \x00\x00\x00\x00\x00\x00\x00\x00\x00\x00\x00\x00\x00\x00\x00\x00\
    \x00\x00\x00\x00\x00\x00\x00\x00\x00\x00\x00\x00\x00\x00\x00\x00\
    \x00\x01\x0e\x02\x0d\x00\x00\x04\x0b\x00\x00\x0c\x00\x03\x0f\x00\
    \x00\x00\x05\x06\x08\x08\x07\x09\x00\x0a\x00\x00\x00\x00\x00\x00\
    \x00\x01\x0e\x02\x0d\x00\x00\x04\x0b\x00\x00\x0c\x00\x03\x0f\x00\
    \x00\x00\x05\x06\x08\x08\x07\x09\x00\x0a\x00\x00\x00\x00\x00\x00\
    \x00\x00\x00\x00\x00\x00\x00\x00\x00\x00\x00\x00\x00\x00\x00\x00\
    \x00\x00\x00\x00\x00\x00\x00\x00\x00\x00\x00\x00\x00\x00\x00\x00\
    \x00\x00\x00\x00\x00\x00\x00\x00\x00\x00\x00\x00\x00\x00\x00\x00\
    \x00\x00\x00\x00\x00\x00\x00\x00\x00\x00\x00\x00\x00\x00\x00\x00\
    \x00\x00\x00\x00\x00\x00\x00\x00\x00\x00\x00\x00\x00\x00\x00\x00\
    \x00\x00\x00\x00\x00\x00\x00\x00\x00\x00\x00\x00\x00\x00\x00\x00\
    \x00\x00\x00\x00\x00\x00\x00\x00\x00\x00\x00\x00\x00\x00\x00\x00\
    \x00\x00\x00\x00\x00\x00\x00\x00\x00\x00\x00\x00\x00\x00\x00\x00";
