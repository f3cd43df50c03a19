// A reference's letters read by their form: one promise for both.
ghost use Rattle.std.specs.Prelude.{◌≡◌, true, ◌-◌, ◌≤◌, ◌<◌, length, get_or};
ghost use Rattle.rules.specs.Bytes.{all, same, over};
ghost use Rattle.rules.specs.Letters.{letter_set, is_letter};
ghost use Rattle.rules.specs.Translation.{exception_list, before_stop, whole_codons, folded_translated};
ghost use Rattle.rules.specs.Trims.{common_prefix, common_suffix};
ghost use Rattle.rules.specs.Altered.{part};
ghost use Rattle.rules.specs.Complement.{reverse_complement};
ghost use Rattle.rules.specs.Packed.{letters_by};
ghost use Rattle.rules.specs.Letters.{is_base};
ghost use Rattle.places.specs.Looked.{Reads, Walks};
ghost use Rattle.packed.specs.Halves.{InLetters};

use crate::compare::{part_prefix_len, part_suffix_len};
use crate::reading::write_packed;
use crate::stops::packed_first_stop;
use crate::turned::write_turned;
use crate::unpack::{letter_pairs, unpack_part};
use halves::check::{packed_bases, packed_letters};
use halves::half::{half_at, letter_of};
use letters::letter_set;
use rules::{Exceptions, Form};
use sequences::{all_letters, common_prefix_len, common_suffix_len, write_revcomp};
use translation::{all_bases, write_translated};
use walks::first_stop;

// Whether each of some letters is one base.
pub fn all_bases_by(letters: &[u8], form: Form) -> bool
    requires { 0 < length (letters_by form letters.now) }
    ensures { result ≡ all is_base (letters_by form letters.now) }
{
    match form {
        Form::Bytes => all_bases(letters),
        Form::Packed(size) => packed_bases(letters, size),
    }
}

// Whether each of some letters is of the fifteen.
pub fn all_letters_by(letters: &[u8], form: Form) -> bool
    requires { 0 < length (letters_by form letters.now) }
    ensures { result ≡ all is_letter (letters_by form letters.now) }
{
    match form {
        Form::Bytes => all_letters(letters),
        Form::Packed(size) => packed_letters(letters, size),
    }
}

// The letter at a place, counted from 0.
pub fn letter_at(letters: &[u8], form: Form, place: usize) -> u8
    requires letters_value { all is_letter (letters_by form letters.now) ≡ true }
    requires place_in_bounds { place < length (letters_by form letters.now) }
    ensures { result ≡ get_or (letters_by form letters.now) place 0 }
{
    match form {
        Form::Bytes => letters[place],
        Form::Packed(_) => letter_of(usize::from(half_at(letters, place))),
    }
}

// Its set.
pub fn set_at(letters: &[u8], form: Form, place: usize) -> usize
    requires letters_value { all is_letter (letters_by form letters.now) ≡ true }
    requires place_in_bounds { place < length (letters_by form letters.now) }
    ensures value { result ≡ letter_set (get_or (letters_by form letters.now) place 0) }
    ensures some { (0 < result) × (result < 16) }
{
    match form {
        Form::Bytes => letter_set(letters[place]),
        Form::Packed(_) => usize::from(half_at(letters, place)),
    }
}

// Writes the letters from..to to the buffer's start, a byte each.
pub fn copy_letters(letters: &[u8], form: Form, from: usize, to: usize, out: &mut [u8])
    requires in_letters { InLetters form letters.now from to }
    requires from_in_bounds { to - from ≤ length out.old }
    ensures { out.new ≡ over (part from to (letters_by form letters.now)) out.old }
{
    match form {
        Form::Bytes => {
            bytewise::copy(&letters[from..to], out);
        }
        Form::Packed(_) => {
            let pairs = letter_pairs();
            unpack_part(letters, from, to, &pairs, out);
        }
    }
}

// Writes their reverse complement.
pub fn turn_letters(letters: &[u8], form: Form, from: usize, to: usize, out: &mut [u8])
    requires in_letters { InLetters form letters.now from to }
    requires from_in_bounds { to - from ≤ length out.old }
    ensures { out.new ≡ over (reverse_complement (part from to (letters_by form letters.now))) out.old }
{
    match form {
        Form::Bytes => {
            write_revcomp(&letters[from..to], out);
        }
        Form::Packed(_) => {
            let pairs = letter_pairs();
            write_turned(letters, from, to, &pairs, out);
        }
    }
}

// How many first letters of from..to are equal to the first bytes of `new`.
pub fn prefix_by(letters: &[u8], form: Form, from: usize, to: usize, new: &[u8]) -> usize
    requires { InLetters form letters.now from to }
    ensures { result ≡ common_prefix (part from to (letters_by form letters.now)) new.now }
{
    match form {
        Form::Bytes => common_prefix_len(&letters[from..to], new),
        Form::Packed(_) => {
            let pairs = letter_pairs();
            part_prefix_len(letters, from, to, &pairs, new)
        }
    }
}

// Whether the letters from..to are the bytes `new`.
pub fn same_by(letters: &[u8], form: Form, from: usize, to: usize, new: &[u8]) -> bool
    requires { InLetters form letters.now from to }
    ensures { result ≡ same (part from to (letters_by form letters.now)) new.now }
{
    if to - from != new.len() {
        return false;
    }
    prefix_by(letters, form, from, to, new) == new.len()
}

// How many last letters of from..to are equal to the last bytes of `new`.
pub fn suffix_by(letters: &[u8], form: Form, from: usize, to: usize, new: &[u8]) -> usize
    requires { InLetters form letters.now from to }
    ensures { result ≡ common_suffix (part from to (letters_by form letters.now)) new.now }
{
    match form {
        Form::Bytes => common_suffix_len(&letters[from..to], new),
        Form::Packed(_) => {
            let pairs = letter_pairs();
            part_suffix_len(letters, from, to, &pairs, new)
        }
    }
}

// Writes the residues of the letters from..to, exceptions applied, to the buffer's start: one a whole codon, X for a rest.
pub fn write_residues(
    letters: &[u8],
    form: Form,
    from: usize,
    to: usize,
    table: usize,
    plain: bool,
    e: Exceptions,
    out: &mut [u8],
)
    requires in_letters { InLetters form letters.now from to }
    requires walks { Walks table plain (part from to (letters_by form letters.now)) e out.old }
    ensures { out.new ≡ over (folded_translated table (exception_list e) (part from to (letters_by form letters.now))) out.old }
{
    match form {
        Form::Bytes => {
            write_translated(&letters[from..to], table, plain, e, out);
        }
        Form::Packed(_) => {
            write_packed(letters, from, to, table, e, out);
        }
    }
}

// The index of the first codon of the letters from..to that reads `*`, exceptions applied, or the number of whole codons.
pub fn first_stop_by(
    letters: &[u8],
    form: Form,
    from: usize,
    to: usize,
    table: usize,
    plain: bool,
    e: Exceptions,
) -> usize
    requires in_letters { InLetters form letters.now from to }
    requires reads { Reads table plain (part from to (letters_by form letters.now)) e }
    ensures { result ≡ before_stop (folded_translated table (exception_list e) (whole_codons (part from to (letters_by form letters.now)))) }
{
    match form {
        Form::Bytes => first_stop(&letters[from..to], table, plain, e),
        Form::Packed(_) => packed_first_stop(letters, from, to, table, e),
    }
}
