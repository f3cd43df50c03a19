// Two editions of a transcript, codon by codon.
ghost use Rattle.std.specs.Prelude.{◌≡◌, length};
ghost use Rattle.rules.specs.Bytes.{over};
ghost use Rattle.rules.specs.Refusal.{limits};
ghost use Rattle.rules.specs.Editions.{compared};
ghost use Rattle.rules.specs.Answer.{written_of, bytes_of};
ghost use Rattle.editions.specs.Uncompared.{compared_told};
ghost use Rattle.host_told.specs.Told.{length_of};
ghost use Rattle.garumbott.specs.Host.{host_reference};

use editions::{Edition, Uncompared, compare};
use host_given::{cds_at, form_at};
use host_told::GarumbottLength;
use stored_fields::exceptions_in;

// What a comparison answers; its refusals have numbers of their own.
// Kept: no From, since both types are other crates'.
fn compared(written: Result<usize, Uncompared>) -> GarumbottLength
    ensures { result ≡ length_of (compared_told written) }
{
    match written {
        Ok(n) => GarumbottLength {
            refusal: 0,
            len: n as u64,
        },
        Err(uncompared) => GarumbottLength {
            refusal: uncompared.number() as u64,
            len: 0,
        },
    }
}

#[unsafe(no_mangle)]
pub extern "C" fn garumbott_compare(
    letters: &[u8],
    cs: u64,
    ce: u64,
    table: u64,
    exceptions: &[u8],
    cds_end: u64,
    form: u64,
    size: u64,
    second_letters: &[u8],
    second_cs: u64,
    second_ce: u64,
    second_table: u64,
    second_exceptions: &[u8],
    second_cds_end: u64,
    second_form: u64,
    second_size: u64,
    out: &mut [u8],
) -> GarumbottLength
    ensures value { result ≡ length_of (written_of (compared limits.longest (host_reference letters.now cs ce table exceptions.now cds_end form size) (host_reference second_letters.now second_cs second_ce second_table second_exceptions.now second_cds_end second_form second_size) (length out.old))) }
    ensures out_after { out.new ≡ over (bytes_of (compared limits.longest (host_reference letters.now cs ce table exceptions.now cds_end form size) (host_reference second_letters.now second_cs second_ce second_table second_exceptions.now second_cds_end second_form second_size) (length out.old))) out.old }
{
    let cds = cds_at(cs, ce, table, cds_end);
    let e = exceptions_in(exceptions);
    let first = Edition {
        form: form_at(form, size),
        cds,
        e,
    };
    let second_cds = cds_at(second_cs, second_ce, second_table, second_cds_end);
    let second_e = exceptions_in(second_exceptions);
    let second = Edition {
        form: form_at(second_form, second_size),
        cds: second_cds,
        e: second_e,
    };
    compared(compare(letters, first, second_letters, second, out))
}
