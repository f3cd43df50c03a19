// A reference written in the stored form.
ghost use Rattle.std.specs.Prelude.{◌≡◌, length};
ghost use Rattle.rules.specs.Bytes.{over};
ghost use Rattle.rules.specs.Refusal.{limits};
ghost use Rattle.rules.specs.Storing.{written_reference};
ghost use Rattle.rules.specs.Answer.{written_of, bytes_of};
ghost use Rattle.host_told.specs.Told.{length_of};
ghost use Rattle.garumbott.specs.Host.{host_reference};

use host_given::{cds_at, form_at};
use host_told::GarumbottLength;
use stored_fields::exceptions_in;
use storing::write_stored;

#[unsafe(no_mangle)]
pub extern "C" fn garumbott_write_stored(
    letters: &[u8],
    cs: u64,
    ce: u64,
    table: u64,
    exceptions: &[u8],
    cds_end: u64,
    form: u64,
    size: u64,
    out: &mut [u8],
) -> GarumbottLength
    ensures value { result ≡ length_of (written_of (written_reference limits.longest (host_reference letters.now cs ce table exceptions.now cds_end form size) (length out.old))) }
    ensures out_after { out.new ≡ over (bytes_of (written_reference limits.longest (host_reference letters.now cs ce table exceptions.now cds_end form size) (length out.old))) out.old }
{
    let cds = cds_at(cs, ce, table, cds_end);
    let e = exceptions_in(exceptions);
    GarumbottLength::from(write_stored(letters, form_at(form, size), cds, e, out))
}
