// "Letters and codons": translation, names, complement and trims of plain byte strings.
ghost use Rattle.std.specs.Prelude.{◌≡◌, length};
ghost use Rattle.rules.specs.Bytes.{over};
ghost use Rattle.rules.specs.Translation.{translation};
ghost use Rattle.rules.specs.Names.{three_letters, one_letters};
ghost use Rattle.rules.specs.Complement.{complemented};
ghost use Rattle.rules.specs.Trims.{common_prefix, common_suffix};
ghost use Rattle.rules.specs.Answer.{written_of, bytes_of};
ghost use Rattle.host_told.specs.Told.{length_of};
ghost use Rattle.garumbott.specs.Host.{exceptions_at, is_set};

use host_told::GarumbottLength;
use stored_fields::exceptions_in;
use translation::{translate_cds, translate_cds_with_exceptions};

#[unsafe(no_mangle)]
pub extern "C" fn garumbott_translate(
    seq: &[u8],
    table: u64,
    full: u64,
    exceptions: &[u8],
    out: &mut [u8],
) -> GarumbottLength
    ensures value { result ≡ length_of (written_of (translation table (exceptions_at exceptions.now) (is_set full) seq.now (length out.old))) }
    ensures out_after { out.new ≡ over (bytes_of (translation table (exceptions_at exceptions.now) (is_set full) seq.now (length out.old))) out.old }
{
    if exceptions.len() == 0 {
        return GarumbottLength::from(translate_cds(seq, table as usize, full != 0, out));
    }
    let e = exceptions_in(exceptions);
    GarumbottLength::from(translate_cds_with_exceptions(seq, table as usize, e, full != 0, out))
}

#[unsafe(no_mangle)]
pub extern "C" fn garumbott_complement(seq: &[u8], out: &mut [u8]) -> GarumbottLength
    ensures value { result ≡ length_of (written_of (complemented seq.now (length out.old))) }
    ensures out_after { out.new ≡ over (bytes_of (complemented seq.now (length out.old))) out.old }
{
    GarumbottLength::from(sequences::revcomp(seq, out))
}

#[unsafe(no_mangle)]
pub extern "C" fn garumbott_names3(one: &[u8], out: &mut [u8]) -> GarumbottLength
    ensures value { result ≡ length_of (written_of (three_letters one.now (length out.old))) }
    ensures out_after { out.new ≡ over (bytes_of (three_letters one.now (length out.old))) out.old }
{
    GarumbottLength::from(names::aa1_to_aa3(one, out))
}

#[unsafe(no_mangle)]
pub extern "C" fn garumbott_names1(three: &[u8], out: &mut [u8]) -> GarumbottLength
    ensures value { result ≡ length_of (written_of (one_letters three.now (length out.old))) }
    ensures out_after { out.new ≡ over (bytes_of (one_letters three.now (length out.old))) out.old }
{
    GarumbottLength::from(names::aa3_to_aa1(three, out))
}

#[unsafe(no_mangle)]
pub extern "C" fn garumbott_common_prefix(a: &[u8], b: &[u8]) -> u64
    ensures { result ≡ common_prefix a.now b.now }
{
    sequences::common_prefix_len(a, b) as u64
}

#[unsafe(no_mangle)]
pub extern "C" fn garumbott_common_suffix(a: &[u8], b: &[u8]) -> u64
    ensures { result ≡ common_suffix a.now b.now }
{
    sequences::common_suffix_len(a, b) as u64
}
