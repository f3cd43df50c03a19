// The first stop, and the residues through it.
#![tactic(auto)]

ghost use Rattle.std.specs.Prelude.{◌≡◌, ℕ, true, List, [], map, ◌+◌, ◌/◌, ◌^◌, ◌<◌, ◌≤◌, min, length};
ghost use Rattle.rules.specs.Bytes.{over};
ghost use Rattle.rules.specs.Letters.{folded};
ghost use Rattle.rules.specs.Translation.{exception_list, excepted, residue_count, before_stop, through_stop, whole_codons, fold_to_letters, folded_translated};
ghost use Rattle.letters.specs.Sets.{HoldsSets, folded_set};
ghost use Rattle.codons.specs.Tables.{HoldsCode, HoldsPlain};
ghost use Rattle.excepted.specs.Exceptions.{Clear};
ghost use Rattle.places.specs.Places.{codon_at, fold_to_bases};
ghost use Rattle.places.specs.Looked.{Reads, Walks};
ghost use Rattle.walks.specs.Walks.{ReadsCodons, WalkedTo, codons_walked};

use codons::tables::{plain_code, residue_in};
use excepted::{excepted_at, next_exception};
use letters::{folded_set, folded_sets};
use places::{pair_at, place_at};
use rules::Exceptions;
use tables::residues_of;

// The residue of codon i, counted from 0, by the tables of sets and of residues.
fn codon_at(seq: &[u8], table: usize, sets: &[u8; 256], residues: &[u8; 4096], i: usize) -> u8
    requires holds_sets { HoldsSets folded_set sets.now }
    requires holds_code { HoldsCode table residues.now }
    requires seq_value { fold_to_letters seq.now ≡ true }
    requires i_in_bounds { i < length seq.now / 3 }
    ensures { result ≡ codon_at table (map folded seq.now) i }
{
    let a = folded_set(sets, seq[i * 3]);
    let b = folded_set(sets, seq[i * 3 + 1]);
    let c = folded_set(sets, seq[i * 3 + 2]);
    residue_in(table, residues, a, b, c)
}

// The same of bases, by its place in the table of plain codons.
fn plain_codon_at(seq: &[u8], table: usize, code: &[u8; 64], i: usize) -> u8
    requires holds_plain { HoldsPlain table code.now }
    requires seq_value { fold_to_bases seq.now ≡ true }
    requires i_in_bounds { i < length seq.now / 3 }
    ensures { result ≡ codon_at table (map folded seq.now) i }
{
    let place = place_at(seq, i);
    code[place]
}

// A codon's residue, exceptions applied, and the number of the next codon with an exception.
#[derive(Clone, Copy)]
struct Turn {
    residue: u8,
    next: usize,
}

// A turn of a walk at codon i, whose residue by the table is known, as is the number of the next codon with an exception.
fn turn_at(e: Exceptions, i: usize, next: usize, past: usize, residue: u8) -> Turn
    requires count_bound { e.count ≤ 16 }
    requires i_in_bounds { (i + 1 < past) × (past < 2 ^ 63) }
    requires clear { Clear (exception_list e) i next }
    ensures residue_value { result.residue ≡ excepted (exception_list e) (i + 1) residue }
    ensures clear { Clear (exception_list e) (i + 1) result.next }
{
    if i + 1 == next {
        return Turn {
            residue: excepted_at(e, next, residue),
            next: next_exception(e, next + 1, past),
        };
    }
    Turn { residue, next }
}

// The index of the first codon that reads `*`, exceptions applied, or the number of whole codons. `read` gives a codon's residue by the table.
pub fn first_stop_of<F: Fn(usize) -> u8>(whole: usize, e: Exceptions, read: F) -> usize
    requires reads { (i : ℕ) → i < whole → F.pre read i }
    requires bounds { (e.count ≤ 16) × (whole + 1 < 2 ^ 63) }
    ensures { (t : ℕ) (s : List ℕ) → ReadsCodons (F.post read) t s whole → result ≡ before_stop (folded_translated t (exception_list e) (whole_codons s)) }
{
    let past = whole + 1;
    let mut next = next_exception(e, 1, past);
    for i in 0..whole {
        let turn = turn_at(e, i, next, past, read(i));
        if turn.residue == b'*' {
            return i;
        }
        next = turn.next;
    }
    whole
}

// The same of bases without exceptions.
fn stop_by_places(seq: &[u8], table: usize, code: &[u8; 64]) -> usize
    requires holds_plain { HoldsPlain table code.now }
    requires seq_value { fold_to_bases seq.now ≡ true }
    ensures { result ≡ before_stop (folded_translated table [] (whole_codons seq.now)) }
{
    let whole = seq.len() / 3;
    for i in 0..whole {
        if plain_codon_at(seq, table, code, i) == b'*' {
            return i;
        }
    }
    whole
}

// The index of the first codon that reads `*`, exceptions applied, or the number of whole codons, the faster way where all letters are bases
// and there are no exceptions.
pub fn first_stop(seq: &[u8], table: usize, plain: bool, e: Exceptions) -> usize
    requires { Reads table plain seq.now e }
    ensures { result ≡ before_stop (folded_translated table (exception_list e) (whole_codons seq.now)) }
{
    if plain & (e.count == 0) {
        let code = plain_code(table);
        return stop_by_places(seq, table, &code);
    }
    let sets = folded_sets();
    let residues = residues_of(table);
    let read = |i: usize| codon_at(seq, table, &sets, &residues, i);
    first_stop_of(seq.len() / 3, e, read)
}

// Where a walk ended, the index of the first `*` or the number of whole codons, and how many codons it looked up.
#[derive(Clone, Copy)]
struct Ended {
    stop: usize,
    looked: usize,
}

// Writes the residues of codons, exceptions applied, to the buffer's start, through the first `*`. `read` gives a codon's residue by the table:
// `looked` is raised where it is called, and nowhere else.
fn write_to_stop<F: Fn(usize) -> u8>(whole: usize, e: Exceptions, read: F, out: &mut [u8]) -> Ended
    requires reads { (i : ℕ) → i < whole → F.pre read i }
    requires bounds { (e.count ≤ 16) × (whole + 1 < 2 ^ 63) × (whole ≤ length out.old) }
    ensures walked_to { (t : ℕ) (s : List ℕ) → ReadsCodons (F.post read) t s whole → WalkedTo (through_stop (folded_translated t (exception_list e) s)) (length s) out.old out.new result.stop }
    ensures within { result.stop ≤ whole }
    ensures counted { result.looked ≡ min (result.stop + 1) whole }
{
    let past = whole + 1;
    let mut next = next_exception(e, 1, past);
    let mut looked = 0;
    for i in 0..whole {
        let turn = turn_at(e, i, next, past, read(i));
        looked += 1;
        out[i] = turn.residue;
        if turn.residue == b'*' {
            return Ended { stop: i, looked };
        }
        next = turn.next;
    }
    Ended {
        stop: whole,
        looked,
    }
}

// The same of bases without exceptions: two codons at a time, then those that are left.
fn write_plain_to_stop(
    seq: &[u8],
    table: usize,
    code: &[u8; 64],
    e: Exceptions,
    out: &mut [u8],
) -> Ended
    requires holds_plain { HoldsPlain table code.now }
    requires no_exceptions { e.count ≡ 0 }
    requires seq_value { fold_to_bases seq.now ≡ true }
    requires seq_in_bounds { residue_count (length seq.now) ≤ length out.old }
    ensures walked_to { WalkedTo (through_stop (folded_translated table [] seq.now)) (length seq.now) out.old out.new result.stop }
    ensures counted { result.looked ≡ min (result.stop + 1) (length seq.now / 3) }
{
    let mut looked = 0;
    let mut i = 0;
    // Kept: a turn moves on by six bytes and reads eight, which a range by steps of two says no plainer.
    while i * 3 + 8 <= seq.len() {
        let pair = pair_at(seq, i);
        let first = pair / 131072 % 64;
        let r = code[first];
        looked += 1;
        out[i] = r;
        if r == b'*' {
            return Ended { stop: i, looked };
        }
        let second = pair / 2199023255552 % 64;
        let next = code[second];
        looked += 1;
        out[i + 1] = next;
        if next == b'*' {
            return Ended {
                stop: i + 1,
                looked,
            };
        }
        i += 2;
    }
    let rest = &seq[i * 3..];
    let read = |k: usize| plain_codon_at(rest, table, code, k);
    let ended = write_to_stop(rest.len() / 3, e, read, &mut out[i..]);
    looked += ended.looked;
    Ended {
        stop: i + ended.stop,
        looked,
    }
}

// The walk to the first stop, the faster way where all letters are bases and there are no exceptions.
fn write_walk(seq: &[u8], table: usize, plain: bool, e: Exceptions, out: &mut [u8]) -> Ended
    requires { Walks table plain seq.now e out.old }
    ensures walked_to { WalkedTo (through_stop (folded_translated table (exception_list e) seq.now)) (length seq.now) out.old out.new result.stop }
    ensures counted { result.looked ≡ min (result.stop + 1) (length seq.now / 3) }
{
    if plain & (e.count == 0) {
        let code = plain_code(table);
        return write_plain_to_stop(seq, table, &code, e, out);
    }
    let sets = folded_sets();
    let residues = residues_of(table);
    let read = |i: usize| codon_at(seq, table, &sets, &residues, i);
    write_to_stop(seq.len() / 3, e, read, out)
}

// What a walk wrote, in residues, and how many codons it looked up in the table.
#[derive(Clone, Copy)]
pub struct Walked {
    pub residues: usize,
    pub looked: usize,
}

// Writes the residues of letters that were looked at, exceptions applied, to the buffer's start: through the first `*`; with none, to the end,
// X for a rest. Answers how many they are, and how many codons were looked up: each whole codon once, through the first `*`.
pub fn write_through_stop(
    seq: &[u8],
    table: usize,
    plain: bool,
    e: Exceptions,
    out: &mut [u8],
) -> Walked
    requires { Walks table plain seq.now e out.old }
    ensures residues_value { result.residues ≡ length (through_stop (folded_translated table (exception_list e) seq.now)) }
    ensures written { out.new ≡ over (through_stop (folded_translated table (exception_list e) seq.now)) out.old }
    ensures looked { result.looked ≡ codons_walked table (exception_list e) seq.now }
{
    let walk = write_walk(seq, table, plain, e, out);
    let stop = walk.stop;
    let looked = walk.looked;
    let whole = seq.len() / 3;
    if stop < whole {
        return Walked {
            residues: stop + 1,
            looked,
        };
    }
    if seq.len() % 3 != 0 {
        out[whole] = b'X';
        return Walked {
            residues: whole + 1,
            looked,
        };
    }
    Walked {
        residues: whole,
        looked,
    }
}
