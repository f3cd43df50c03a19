// The text program over memory.
ghost use Rattle.std.specs.Prelude.{◌≡◌, length};
ghost use Rattle.rules.specs.Bytes.{over};
ghost use Rattle.rules.specs.Answer.{written_of, bytes_of};
ghost use Rattle.text_run.specs.Runs.{run_within};
ghost use Rattle.host_told.specs.Told.{length_of};

use host_told::GarumbottLength;

#[unsafe(no_mangle)]
pub extern "C" fn garumbott_run(input: &[u8], out: &mut [u8]) -> GarumbottLength
    ensures value { result ≡ length_of (written_of (run_within input.now (length out.old))) }
    ensures out_after { out.new ≡ over (bytes_of (run_within input.now (length out.old))) out.old }
{
    GarumbottLength::from(text_run::run(input, out))
}
