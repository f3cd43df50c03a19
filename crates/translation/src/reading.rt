// Codons read by the tables, without exceptions.
ghost use Rattle.std.specs.Prelude.{◌≡◌, ℕ, true, [], map, ◌+◌, ◌*◌, ◌/◌, ◌<◌, ◌≤◌, length};
ghost use Rattle.rules.proofs.Over.{over_from};
ghost use Rattle.places.proofs.Residues.{left_from};
ghost use Rattle.rules.specs.Bytes.{over};
ghost use Rattle.rules.specs.Letters.{folded};
ghost use Rattle.rules.specs.Translation.{residue_count, fold_to_letters, folded_translated};
ghost use Rattle.letters.specs.Sets.{HoldsSets, folded_set};
ghost use Rattle.codons.specs.Tables.{HoldsCode, HoldsPlain};
ghost use Rattle.rows.specs.Rows.{HoldsLetters};
ghost use Rattle.places.specs.Places.{codon_at, fold_to_bases};

use codon_reader::read_by_plain;
use codons::tables::plain_code;
use letters::{is_base_letter, set_of_letter};
use places::{entries_at, entry_at, pair_at, place_at};
use rows::lay_residues;

// Writes the residues of codons, four at a time, to the buffer's start, and answers how many that were. `pair` reads codons i and i + 1 from eight
// bytes, so it stops two bytes before the last four would end.
fn write_fours<P: Fn(usize) -> (u8, u8)>(seq: &[u8], table: usize, pair: P, out: &mut [u8]) -> usize
    requires room { residue_count (length seq.now) ≤ length out.old }
    requires callable { (i : ℕ) → i * 3 + 8 ≤ length seq.now → P.pre pair i }
    requires reads { (i : ℕ) (r : _) → i * 3 + 8 ≤ length seq.now → P.post pair i r → (r.0 ≡ codon_at table (map folded seq.now) i) × (r.1 ≡ codon_at table (map folded seq.now) (i + 1)) }
    ensures within { result ≤ length seq.now / 3 }
    ensures left { over_from result (left_from table [] seq.now result) out.new ≡ over (folded_translated table [] seq.now) out.old }
{
    let fours = seq.len().saturating_sub(2) / 12;
    for k in 0..fours {
        let i = k * 4;
        let one = pair(i);
        let two = pair(i + 2);
        out[i] = one.0;
        out[i + 1] = one.1;
        out[i + 2] = two.0;
        out[i + 3] = two.1;
    }
    fours * 4
}

// Writes the residues of the codons from number `done` on, one at a time, and an X for a rest.
fn write_left<R: Fn(usize) -> u8>(seq: &[u8], table: usize, done: usize, read: R, out: &mut [u8])
    requires done_bound { done ≤ length seq.now / 3 }
    requires room { residue_count (length seq.now) ≤ length out.old }
    requires callable { (i : ℕ) → i < length seq.now / 3 → R.pre read i }
    requires reads { (i r : ℕ) → i < length seq.now / 3 → R.post read i r → r ≡ codon_at table (map folded seq.now) i }
    ensures { out.new ≡ over_from done (left_from table [] seq.now done) out.old }
{
    let whole = seq.len() / 3;
    for i in done..whole {
        out[i] = read(i);
    }
    if seq.len() % 3 != 0 {
        out[whole] = b'X';
    }
}

// The residue of codon i of bases, by its place in the table of plain codons.
fn plain_codon(seq: &[u8], table: usize, code: &[u8; 64], i: usize) -> u8
    requires holds_plain { HoldsPlain table code.now }
    requires bases { fold_to_bases seq.now ≡ true }
    requires i_in_bounds { i < length seq.now / 3 }
    ensures { result ≡ codon_at table (map folded seq.now) i }
{
    let place = place_at(seq, i);
    code[place]
}

// Those of codons i and i + 1.
fn plain_pair(seq: &[u8], table: usize, code: &[u8; 64], i: usize) -> (u8, u8)
    requires holds_plain { HoldsPlain table code.now }
    requires bases { fold_to_bases seq.now ≡ true }
    requires i_in_bounds { i * 3 + 8 ≤ length seq.now }
    ensures { (result.0 ≡ codon_at table (map folded seq.now) i) × (result.1 ≡ codon_at table (map folded seq.now) (i + 1)) }
{
    let pair = pair_at(seq, i);
    let first = pair / 131072 % 64;
    let second = pair / 2199023255552 % 64;
    (code[first], code[second])
}

// Writes the residues of bases, without exceptions, to the buffer's start: four codons at a time, then those that are left.
fn write_plain(seq: &[u8], table: usize, code: &[u8; 64], out: &mut [u8])
    requires holds_plain { HoldsPlain table code.now }
    requires seq_value { fold_to_bases seq.now ≡ true }
    requires seq_in_bounds { residue_count (length seq.now) ≤ length out.old }
    ensures { out.new ≡ over (folded_translated table [] seq.now) out.old }
{
    let pair = |i: usize| plain_pair(seq, table, code, i);
    let read = |i: usize| plain_codon(seq, table, code, i);
    let done = write_fours(seq, table, pair, out);
    write_left(seq, table, done, read, out);
}

// The residue of codon i of any letters, by its place in the table of 4,096.
fn letter_codon(seq: &[u8], table: usize, residues: &[u8; 4096], i: usize) -> u8
    requires holds_letters { HoldsLetters table residues.now }
    requires letters { fold_to_letters seq.now ≡ true }
    requires i_in_bounds { i < length seq.now / 3 }
    ensures { result ≡ codon_at table (map folded seq.now) i }
{
    let entry = entry_at(seq, i);
    residues[entry]
}

// Those of codons i and i + 1.
fn letter_pair(seq: &[u8], table: usize, residues: &[u8; 4096], i: usize) -> (u8, u8)
    requires holds_letters { HoldsLetters table residues.now }
    requires letters { fold_to_letters seq.now ≡ true }
    requires i_in_bounds { i * 3 + 8 ≤ length seq.now }
    ensures { (result.0 ≡ codon_at table (map folded seq.now) i) × (result.1 ≡ codon_at table (map folded seq.now) (i + 1)) }
{
    let pair = entries_at(seq, i);
    let first = pair / 1024 % 4096;
    let second = pair / 17179869184 % 4096;
    (residues[first], residues[second])
}

// The same of any letters.
fn write_any(seq: &[u8], table: usize, residues: &[u8; 4096], out: &mut [u8])
    requires holds_letters { HoldsLetters table residues.now }
    requires seq_value { fold_to_letters seq.now ≡ true }
    requires seq_in_bounds { residue_count (length seq.now) ≤ length out.old }
    ensures { out.new ≡ over (folded_translated table [] seq.now) out.old }
{
    let pair = |i: usize| letter_pair(seq, table, residues, i);
    let read = |i: usize| letter_codon(seq, table, residues, i);
    let done = write_fours(seq, table, pair, out);
    write_left(seq, table, done, read, out);
}

// The residue of codon i by the plain codons: at its place where its letters are bases, else by the bases of each.
fn codon_by_plain(seq: &[u8], table: usize, code: &[u8; 64], i: usize) -> u8
    requires holds_plain { HoldsPlain table code.now }
    requires seq_value { fold_to_letters seq.now ≡ true }
    requires i_in_bounds { i < length seq.now / 3 }
    ensures { result ≡ codon_at table (map folded seq.now) i }
{
    let a = seq[i * 3];
    let b = seq[i * 3 + 1];
    let c = seq[i * 3 + 2];
    if is_base_letter(a) & is_base_letter(b) & is_base_letter(c) {
        let place = place_at(seq, i);
        return code[place];
    }
    read_by_plain(
        table,
        code,
        set_of_letter(a),
        set_of_letter(b),
        set_of_letter(c),
    )
}

// Writes the residues of a few letters, one codon at a time.
fn write_few(seq: &[u8], table: usize, code: &[u8; 64], out: &mut [u8])
    requires holds_plain { HoldsPlain table code.now }
    requires seq_value { fold_to_letters seq.now ≡ true }
    requires seq_in_bounds { residue_count (length seq.now) ≤ length out.old }
    ensures { out.new ≡ over (folded_translated table [] seq.now) out.old }
{
    let read = |i: usize| codon_by_plain(seq, table, code, i);
    write_left(seq, table, 0, read, out);
}

// Below so many letters the table of 4,096 takes longer to lay out than it saves.
const FEW: usize = 192;

// Writes the residues of letters all of which are bases.
pub(crate) fn write_bases(seq: &[u8], table: usize, out: &mut [u8])
    requires table_bound { table < 3 }
    requires seq_value { fold_to_bases seq.now ≡ true }
    requires seq_in_bounds { residue_count (length seq.now) ≤ length out.old }
    ensures { out.new ≡ over (folded_translated table [] seq.now) out.old }
{
    let code = plain_code(table);
    write_plain(seq, table, &code, out);
}

// Writes the residues of letters without the table of 4,096.
fn write_short(seq: &[u8], table: usize, out: &mut [u8])
    requires table_bound { table < 3 }
    requires seq_value { fold_to_letters seq.now ≡ true }
    requires seq_in_bounds { residue_count (length seq.now) ≤ length out.old }
    ensures { out.new ≡ over (folded_translated table [] seq.now) out.old }
{
    let code = plain_code(table);
    write_few(seq, table, &code, out);
}

// Writes the residues of letters by the table of 4,096. It has two callers, so that it stays a function of its own: neither makes room for the
// table before it looks.
fn write_long(seq: &[u8], table: usize, out: &mut [u8])
    requires table_bound { table < 3 }
    requires seq_value { fold_to_letters seq.now ≡ true }
    requires seq_in_bounds { residue_count (length seq.now) ≤ length out.old }
    ensures { out.new ≡ over (folded_translated table [] seq.now) out.old }
{
    let mut residues = [b'X'; 4096];
    lay_residues(table, &mut residues);
    write_any(seq, table, &residues, out);
}

// Writes the residues of letters, without exceptions, to the buffer's start, the faster way where all letters are bases.
pub(crate) fn write_letters(seq: &[u8], table: usize, plain: bool, out: &mut [u8])
    requires table_bound { table < 3 }
    requires seq_value { fold_to_letters seq.now ≡ true }
    requires bases { plain ≡ true → fold_to_bases seq.now ≡ true }
    requires seq_in_bounds { residue_count (length seq.now) ≤ length out.old }
    ensures { out.new ≡ over (folded_translated table [] seq.now) out.old }
{
    if plain {
        write_bases(seq, table, out);
    } else if seq.len() < FEW {
        write_short(seq, table, out);
    } else {
        write_long(seq, table, out);
    }
}

// The same of letters some of which are no bases.
pub(crate) fn write_mixed(seq: &[u8], table: usize, out: &mut [u8])
    requires table_bound { table < 3 }
    requires seq_value { fold_to_letters seq.now ≡ true }
    requires seq_in_bounds { residue_count (length seq.now) ≤ length out.old }
    ensures { out.new ≡ over (folded_translated table [] seq.now) out.old }
{
    if seq.len() < FEW {
        write_short(seq, table, out);
    } else {
        write_long(seq, table, out);
    }
}
