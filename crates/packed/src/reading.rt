// Codons of packed letters. Two codons are three bytes: from an even place on, each codon's three halves are its place in the table of 4,096.
ghost use Rattle.std.specs.Prelude.{◌≡◌, [], ◌+◌, ◌-◌, ◌*◌, ◌%◌, ◌≤◌, ◌<◌, length};
ghost use Rattle.rules.specs.Bytes.{over};
ghost use Rattle.rules.specs.Codons.{codon_rule};
ghost use Rattle.rules.specs.Translation.{exception_list, residue_count, folded_translated};
ghost use Rattle.rules.specs.Altered.{part};
ghost use Rattle.rules.proofs.Over.{over_from};
ghost use Rattle.codons.specs.Tables.{HoldsCode};
ghost use Rattle.places.proofs.Residues.{left_from};
ghost use Rattle.rules.specs.Packed.{set_at, letters_in};
ghost use Rattle.packed.specs.Halves.{codons_at};

use excepted::put_exceptions;
use rules::Exceptions;
use tables::residues_of;

// The residue of the codon that begins in the high half of byte j.
pub(crate) fn even_codon(packed: &[u8], j: usize, table: usize, lut: &[u8; 4096]) -> u8
    requires holds_code { HoldsCode table lut.now }
    requires j_in_bounds { j + 1 < length packed.now }
    ensures { result ≡ codon_rule table (set_at packed.now (j * 2)) (set_at packed.now (j * 2 + 1)) (set_at packed.now ((j + 1) * 2)) }
{
    let i = (usize::from(packed[j]) * 256 + usize::from(packed[j + 1])) / 16;
    lut[i]
}

// The residue of the codon that begins in the low half of byte j.
pub(crate) fn odd_codon(packed: &[u8], j: usize, table: usize, lut: &[u8; 4096]) -> u8
    requires holds_code { HoldsCode table lut.now }
    requires j_in_bounds { j + 1 < length packed.now }
    ensures { result ≡ codon_rule table (set_at packed.now (j * 2 + 1)) (set_at packed.now ((j + 1) * 2)) (set_at packed.now ((j + 1) * 2 + 1)) }
{
    let i = (usize::from(packed[j]) * 256 + usize::from(packed[j + 1])) % 4096;
    lut[i]
}

// Writes the residues of the codons from number `done` on, counted from 0, where that one begins in a high half: two at a time.
fn write_pairs(
    packed: &[u8],
    first: usize,
    done: usize,
    codons: usize,
    table: usize,
    lut: &[u8; 4096],
    out: &mut [u8],
)
    requires holds_code { HoldsCode table lut.now }
    requires done_value { (first + done * 3) % 2 ≡ 0 }
    requires done_le_codons { done ≤ codons }
    requires codons_in_bounds { (first + codons * 3 ≤ length packed.now * 2) × (codons ≤ length out.old) }
    ensures { out.new ≡ over_from done (left_from table [] (codons_at first codons packed.now) done) out.old }
{
    let start = first / 2 + done + (done + first % 2) / 2;
    let pairs = (codons - done) / 2;
    for k in 0..pairs {
        let i = done + k * 2;
        let j = start + k * 3;
        let one = even_codon(packed, j, table, lut);
        let two = odd_codon(packed, j + 1, table, lut);
        out[i] = one;
        out[i + 1] = two;
    }
    let last = done + pairs * 2;
    if last < codons {
        out[last] = even_codon(packed, start + pairs * 3, table, lut);
    }
}

// The same, four at a time, then those that are left.
fn write_fours(
    packed: &[u8],
    first: usize,
    done: usize,
    codons: usize,
    table: usize,
    lut: &[u8; 4096],
    out: &mut [u8],
)
    requires holds_code { HoldsCode table lut.now }
    requires done_value { (first + done * 3) % 2 ≡ 0 }
    requires done_le_codons { done ≤ codons }
    requires codons_in_bounds { (first + codons * 3 ≤ length packed.now * 2) × (codons ≤ length out.old) }
    ensures { out.new ≡ over_from done (left_from table [] (codons_at first codons packed.now) done) out.old }
{
    let start = first / 2 + done + (done + first % 2) / 2;
    let fours = (codons - done) / 4;
    for k in 0..fours {
        let i = done + k * 4;
        let j = start + k * 6;
        let one = even_codon(packed, j, table, lut);
        let two = odd_codon(packed, j + 1, table, lut);
        let three = even_codon(packed, j + 3, table, lut);
        let four = odd_codon(packed, j + 3 + 1, table, lut);
        out[i] = one;
        out[i + 1] = two;
        out[i + 2] = three;
        out[i + 2 + 1] = four;
    }
    write_pairs(packed, first, done + fours * 4, codons, table, lut, out);
}

// Writes the residues of so many codons, the first of which begins at a place, to the buffer's start.
fn write_packed_translated(
    packed: &[u8],
    first: usize,
    codons: usize,
    table: usize,
    lut: &[u8; 4096],
    out: &mut [u8],
)
    requires holds_code { HoldsCode table lut.now }
    requires codons_in_bounds { first + codons * 3 ≤ length packed.now * 2 }
    requires room { codons ≤ length out.old }
    ensures { out.new ≡ over (folded_translated table [] (codons_at first codons packed.now)) out.old }
{
    if first % 2 == 0 {
        write_fours(packed, first, 0, codons, table, lut, out);
        return;
    }
    if 0 < codons {
        out[0] = odd_codon(packed, first / 2, table, lut);
        write_fours(packed, first, 1, codons, table, lut, out);
    }
}

// Writes the residues of the letters first..end to the buffer's start, X for a rest.
fn write_packed_letters(
    packed: &[u8],
    first: usize,
    end: usize,
    table: usize,
    lut: &[u8; 4096],
    out: &mut [u8],
)
    requires holds_code { HoldsCode table lut.now }
    requires first_le_end { (first ≤ end) × (end ≤ length packed.now * 2) }
    requires first_in_bounds { residue_count (end - first) ≤ length out.old }
    ensures { out.new ≡ over (folded_translated table [] (part first end (letters_in packed.now))) out.old }
{
    let whole = (end - first) / 3;
    write_packed_translated(packed, first, whole, table, lut, out);
    if (end - first) % 3 != 0 {
        out[whole] = b'X';
    }
}

// The same with exceptions.
pub(crate) fn write_packed(
    packed: &[u8],
    first: usize,
    end: usize,
    table: usize,
    e: Exceptions,
    out: &mut [u8],
)
    requires table_bound { (table < 3) × (e.count ≤ 16) }
    requires first_le_end { (first ≤ end) × (end ≤ length packed.now * 2) }
    requires first_in_bounds { residue_count (end - first) ≤ length out.old }
    ensures { out.new ≡ over (folded_translated table (exception_list e) (part first end (letters_in packed.now))) out.old }
{
    let residues = residues_of(table);
    write_packed_letters(packed, first, end, table, &residues, out);
    put_exceptions(e, (end - first) / 3, out);
}
