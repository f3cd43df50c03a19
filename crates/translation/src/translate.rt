// Plain translation of a byte string, without and with exceptions.
ghost use Rattle.std.specs.Prelude.{◌≡◌, [], length};
ghost use Rattle.rules.specs.Bytes.{over};
ghost use Rattle.rules.specs.Translation.{exception_list, folded_translated, translation};
ghost use Rattle.rules.specs.Answer.{written_of, bytes_of};
ghost use Rattle.rules.specs.Refusals.{told};
ghost use Rattle.places.specs.Looked.{Walks};

use crate::bases::{all_fold_to_bases, all_fold_to_letters, are_letters};
use crate::reading::{write_bases, write_letters, write_mixed};
use excepted::{are_exceptions, put_exceptions};
use rules::{Exceptions, Refusal};

// Writes the translation of letters that were looked at to the buffer's start.
pub fn write_translated(seq: &[u8], table: usize, plain: bool, e: Exceptions, out: &mut [u8])
    requires { Walks table plain seq.now e out.old }
    ensures { out.new ≡ over (folded_translated table (exception_list e) seq.now) out.old }
{
    write_letters(seq, table, plain, out);
    let whole = seq.len() / 3;
    put_exceptions(e, whole, out);
}

// Writes one residue a whole codon, then one X if one or two bytes remain, unless full codons are demanded, to the buffer's start. A refusal
// changes no byte.
pub fn translate_cds(seq: &[u8], table: usize, full: bool, out: &mut [u8]) -> Result<usize, Refusal>
    ensures answer { told result ≡ written_of (translation table [] full seq.now (length out.old)) }
    ensures written { out.new ≡ over (bytes_of (translation table [] full seq.now (length out.old))) out.old }
{
    if 2 < table {
        return Err(Refusal::Table);
    }
    if full & (0 < seq.len() % 3) {
        return Err(Refusal::Codon);
    }
    let n = seq.len().div_ceil(3);
    if out.len() < n {
        return Err(Refusal::Output);
    }
    let end = seq.len() - seq.len() % 3;
    if all_fold_to_bases(&seq[..end]) {
        write_bases(seq, table, out);
        return Ok(n);
    }
    if all_fold_to_letters(&seq[..end]) {
        write_mixed(seq, table, out);
        return Ok(n);
    }
    Err(Refusal::Letter)
}

// The same with exceptions, which are put over the residues of their codons. It doesn't call the function above: with one caller in the library,
// that becomes part of it, and a few letters take two thirds of the time.
pub fn translate_cds_with_exceptions(
    seq: &[u8],
    table: usize,
    e: Exceptions,
    full: bool,
    out: &mut [u8],
) -> Result<usize, Refusal>
    ensures answer { told result ≡ written_of (translation table (exception_list e) full seq.now (length out.old)) }
    ensures written { out.new ≡ over (bytes_of (translation table (exception_list e) full seq.now (length out.old))) out.old }
{
    if 2 < table {
        return Err(Refusal::Table);
    }
    if !are_exceptions(e) {
        return Err(Refusal::Exceptions);
    }
    if full & (0 < seq.len() % 3) {
        return Err(Refusal::Codon);
    }
    let n = seq.len().div_ceil(3);
    if out.len() < n {
        return Err(Refusal::Output);
    }
    let end = seq.len() - seq.len() % 3;
    let plain = all_fold_to_bases(&seq[..end]);
    if !are_letters(&seq[..end], plain) {
        return Err(Refusal::Letter);
    }
    write_translated(seq, table, plain, e, out);
    Ok(n)
}
