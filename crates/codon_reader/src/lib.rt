// The plain codon reader: the codon rule without the tables of letter sets, for comparison with them.
#![tactic(auto)]

ghost use Rattle.std.specs.Prelude.{◌≡◌, ◌-◌, ◌<◌, ◌≤◌, get_or};
ghost use Rattle.rules.specs.Codons.{genetic_code, residue_x, codon_rule};
ghost use Rattle.codons.specs.Tables.{HoldsPlain};
ghost use Rattle.codon_reader.specs.Expansion.{codon_count, expanded, joined_all};
ghost use Rattle.codon_reader.specs.Pairs.{is_base_set, first_residue, agreed_on, pair_rule, two_pairs, mixed_rule};

use mixes::join;

// What a base adds to a set, in the order T, C, A, G.
const BITS: [usize; 4] = [8, 2, 1, 4];

// The residues of the 64 plain codons, first base slowest, order T, C, A, G: the three codes of the tables.
// Kept: a list of its own, in the order of `genetic_code`: that of `codons` is by the numbers of letters, and this reader is compared with it.
const STANDARD: [u8; 64] = *b"FFLLSSSSYY**CC*WLLLLPPPPHHQQRRRRIIIMTTTTNNKKSSRRVVVVAAAADDEEGGGG";

const SELENOCYSTEINE: [u8; 64] =
    *b"FFLLSSSSYY**CCUWLLLLPPPPHHQQRRRRIIIMTTTTNNKKSSRRVVVVAAAADDEEGGGG";

const MITOCHONDRIAL: [u8; 64] =
    *b"FFLLSSSSYY**CCWWLLLLPPPPHHQQRRRRIIMMTTTTNNKKSS**VVVVAAAADDEEGGGG";

// The residue of the plain codon at a place among the 64.
fn plain_residue(table: usize, place: usize) -> u8
    requires { (table < 3) × (place < 64) }
    ensures { result ≡ get_or (genetic_code table) place residue_x }
{
    match table {
        0 => STANDARD[place],
        1 => SELENOCYSTEINE[place],
        _ => MITOCHONDRIAL[place],
    }
}

// Expands the letters left, one at a time, behind the bases that make the place, and joins the residue of each plain codon to the one found so far.
fn expand(table: usize, sets: [usize; 3], left: usize, place: usize, found: u8) -> u8
    requires table_bound { (table < 3) × (left ≤ 3) }
    requires place_bound { place < codon_count (3 - left) }
    ensures { result ≡ joined_all found (expanded left table sets place) }
{
    if left == 0 {
        return join(found, plain_residue(table, place));
    }
    let letter = sets[3 - left];
    let mut all = found;
    for base in 0..4 {
        let bit = BITS[base];
        if letter / bit % 2 == 1 {
            all = expand(table, sets, left - 1, place * 4 + base, all);
        }
    }
    all
}

// The residue of a codon of three letter sets, none of them empty.
pub fn read_codon(table: usize, a: usize, b: usize, c: usize) -> u8
    requires table_bound { table < 3 }
    requires a_nonzero { (0 < a) × (a < 16) }
    requires b_nonzero { (0 < b) × (b < 16) }
    requires c_nonzero { (0 < c) × (c < 16) }
    ensures { result ≡ codon_rule table a b c }
{
    expand(table, [a, b, c], 3, 0, 0)
}

// The same by the residues of the plain codons, which a walk has at hand, without a loop. Two first letters agree on anything only where both are
// bases, or where they are one of five mixed pairs.

// Whether a set has one base.
fn is_base_set(s: usize) -> bool
    ensures { result ≡ is_base_set s }
{
    (s == 1) | (s == 2) | (s == 4) | (s == 8)
}

// Of the residues with A, C, T and G as the third base: that of the first base, in the order A, C, G, T, that the third letter stands for.
fn first_of(a: u8, c: u8, t: u8, g: u8, third: usize) -> u8
    ensures { result ≡ first_residue a c t g third }
{
    if third % 2 == 1 {
        return a;
    }
    if third / 2 % 2 == 1 {
        return c;
    }
    if third / 4 % 2 == 1 { g } else { t }
}

// The one residue that all bases of the third letter give, else X.
fn agreed_on(a: u8, c: u8, t: u8, g: u8, third: usize) -> u8
    ensures { result ≡ agreed_on a c t g third }
{
    let found = first_of(a, c, t, g, third);
    let with_c = (third / 2 % 2 == 0) | (c == found);
    let with_g = (third / 4 % 2 == 0) | (g == found);
    let with_t = (third / 8 % 2 == 0) | (t == found);
    if with_c & with_g & with_t {
        found
    } else {
        b'X'
    }
}

// The residue of two bases and a third letter. The bases are a pair of numbers b / 2 % 4 of their letters: A 0, C 1, T 2, G 3.
fn read_third(table: usize, code: &[u8; 64], pair: usize, c: usize) -> u8
    requires holds_plain { HoldsPlain table code.now }
    requires pair_bound { pair < 16 }
    requires c_nonzero { (0 < c) × (c < 16) }
    ensures { result ≡ pair_rule table pair c }
{
    let place = pair * 4;
    agreed_on(
        code[place],
        code[place + 1],
        code[place + 2],
        code[place + 3],
        c,
    )
}

// The two pairs of bases that a mixed pair of sets stands for, a hexadecimal digit each, of RA, SA, TR, YT and MG. No other mixed pair agrees on a
// residue, whatever the third letter: 0.
// Kept: 0 for none, as the definition `two_pairs` has it; an Option would be made here and taken apart at the one call.
fn two_pairs(sets: usize) -> usize
    ensures value { result ≡ two_pairs sets }
    ensures small { result < 256 }
{
    match sets {
        0x51 => 0x0c,
        0x61 => 0x4c,
        0x85 => 0x8b,
        0xa8 => 0x6a,
        0x34 => 0x37,
        _ => 0,
    }
}

// The residue of two letters that aren't both bases, and a third.
fn read_mixed(table: usize, code: &[u8; 64], sets: usize, c: usize) -> u8
    requires holds_plain { HoldsPlain table code.now }
    requires sets_bound { sets < 256 }
    requires c_nonzero { (0 < c) × (c < 16) }
    ensures { result ≡ mixed_rule table sets c }
{
    let pairs = two_pairs(sets);
    if pairs == 0 {
        return b'X';
    }
    let first = read_third(table, code, pairs / 16, c);
    let second = read_third(table, code, pairs % 16, c);
    join(first, second)
}

// The residue of a codon of three letter sets, none of them empty.
pub fn read_by_plain(table: usize, code: &[u8; 64], a: usize, b: usize, c: usize) -> u8
    requires holds_plain { HoldsPlain table code.now }
    requires a_nonzero { (0 < a) × (a < 16) }
    requires b_nonzero { (0 < b) × (b < 16) }
    requires c_nonzero { (0 < c) × (c < 16) }
    ensures { result ≡ codon_rule table a b c }
{
    if is_base_set(a) & is_base_set(b) {
        let pair = (a / 2 + a / 4) % 4 * 4 + (b / 2 + b / 4) % 4;
        return read_third(table, code, pair, c);
    }
    read_mixed(table, code, a * 16 + b, c)
}
