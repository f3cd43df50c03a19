// A codon of a CDS as one number, and its residue.
#![tactic(auto)]

ghost use Rattle.std.specs.Prelude.{◌≡◌, ◌+◌, ◌-◌, ◌*◌, ◌<◌, ◌≤◌, length};
ghost use Rattle.rules.specs.Translation.{exception_list};
ghost use Rattle.rules.specs.Packed.{set_at, unpacked, letters_by};
ghost use Rattle.rules.specs.Views.{bare};
ghost use Rattle.entries.specs.Entries.{Inside, base_at, entry_of, residue_by};

use excepted::excepted_at;
use letters::letter_set;
use packed::set_at;
use rules::{Cds, Exceptions, Form};

// The letter set of base k of a CDS, counted from 0; behind its last the empty one. A letter is a byte.
fn base_at(letters: &[u8], c: Cds, k: usize) -> usize
    requires { Inside letters.now c }
    ensures value { result ≡ base_at (bare letters.now c) k }
    ensures small { result < 16 }
{
    let at = c.cs - 1;
    if k < c.ce - at {
        return letter_set(letters[at + k]);
    }
    0
}

// The letters of codon n, from 1, as one number, where a letter is a byte.
fn byte_entry(letters: &[u8], c: Cds, n: usize) -> usize
    requires inside { Inside letters.now c }
    requires le_n { (1 ≤ n) × (n ≤ 65536) }
    ensures value { result ≡ entry_of (bare letters.now c) n }
    ensures small { result < 4096 }
{
    let k = (n - 1) * 3;
    let first = base_at(letters, c, k);
    let second = base_at(letters, c, k + 1);
    let third = base_at(letters, c, k + 2);
    first * 256 + second * 16 + third
}

// The halves at a place and the two behind it as one number.
fn halves_at(packed: &[u8], place: usize) -> usize
    requires { place + 3 ≤ length packed.now * 2 }
    ensures value { result ≡ set_at packed.now place * 256 + set_at packed.now (place + 1) * 16 + set_at packed.now (place + 2) }
    ensures small { result < 4096 }
{
    let j = place / 2;
    let both = usize::from(packed[j]) * 256 + usize::from(packed[j + 1]);
    if place % 2 == 0 {
        return both / 16;
    }
    both % 4096
}

// The letters of codon n as one number, where two letters are a byte: a whole codon by its three halves, one of two letters or one by their sets.
fn packed_entry(packed: &[u8], size: usize, c: Cds, n: usize) -> usize
    requires inside { Inside (unpacked size packed.now) c }
    requires le_n { (1 ≤ n) × (n ≤ 65536) }
    ensures value { result ≡ entry_of (bare (unpacked size packed.now) c) n }
    ensures small { result < 4096 }
{
    let k = (n - 1) * 3;
    let bases = c.ce - (c.cs - 1);
    if bases <= k {
        return 0;
    }
    let at = c.cs - 1 + k;
    if k + 2 < bases {
        return halves_at(packed, at);
    }
    let first = set_at(packed, Form::Packed(size), at) * 256;
    if k + 1 < bases {
        return first + set_at(packed, Form::Packed(size), at + 1) * 16;
    }
    first
}

// The letters of codon n, from 1, as one number, by which its residue stands in a table: four bits a letter, 0 for one that isn't there.
pub fn entry_of(letters: &[u8], form: Form, c: Cds, n: usize) -> usize
    requires inside { Inside (letters_by form letters.now) c }
    requires le_n { (1 ≤ n) × (n ≤ 65536) }
    ensures value { result ≡ entry_of (bare (letters_by form letters.now) c) n }
    ensures small { result < 4096 }
{
    match form {
        Form::Bytes => byte_entry(letters, c, n),
        Form::Packed(size) => packed_entry(letters, size, c, n),
    }
}

// The residue of codon n by that number: 0 without letters, X for one or two of them, else the table's, exceptions applied.
pub fn residue_by(residues: &[u8; 4096], e: Exceptions, entry: usize, n: usize) -> u8
    requires count_bound { e.count ≤ 16 }
    requires bound { entry < 4096 }
    ensures { result ≡ residue_by residues.now (exception_list e) entry n }
{
    if entry == 0 {
        return 0;
    }
    if entry % 16 == 0 {
        return b'X';
    }
    let residue = residues[entry];
    if e.count == 0 {
        return residue;
    }
    excepted_at(e, n, residue)
}
