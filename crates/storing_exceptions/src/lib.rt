// The exceptions of a reference, three bytes each, and the field that holds them.
#![tactic(auto)]

ghost use Rattle.std.specs.Prelude.{◌≡◌, ℕ, ◌*◌, ◌≤◌, ◌<◌, length, get_or};
ghost use Rattle.rules.specs.Bytes.{each, over};
ghost use Rattle.rules.specs.Translation.{no_exception, exception_list};
ghost use Rattle.rules.specs.Storing.{tagged, exception_bytes};
ghost use Rattle.storing_numbers.specs.Fields.{one_field};

use byte_numbers::write_two;
use fields::write_field;
use rules::{Exception, Exceptions};

// Codon, two bytes; residue.
fn write_exception(e: Exception, out: &mut [u8]) -> usize
    requires codon_bound { e.codon < 65536 }
    requires in_bounds { 3 ≤ length out.old }
    ensures value { result ≡ 3 }
    ensures out_after { out.new ≡ over (exception_bytes e) out.old }
{
    let codon = write_two(e.codon as usize, out);
    out[codon] = e.residue;
    codon + 1
}

// All of them, one behind the other.
fn write_exceptions(e: Exceptions, out: &mut [u8]) -> usize
    requires count_bound { (e.count ≤ 16) × ((i : ℕ) → i < e.count → (get_or (exception_list e) i no_exception).codon < 65536) }
    requires count_in_bounds { e.count * 3 ≤ length out.old }
    ensures value { result ≡ e.count * 3 }
    ensures out_after { out.new ≡ over (each exception_bytes (exception_list e)) out.old }
{
    let all = e.all;
    let mut at = 0;
    for i in 0..e.count {
        at += write_exception(all[i], &mut out[at..]);
    }
    at
}

// Tag 4; none where there are no exceptions.
pub fn write_excepted(e: Exceptions, out: &mut [u8]) -> usize
    requires count_bound { (e.count ≤ 16) × ((i : ℕ) → i < e.count → (get_or (exception_list e) i no_exception).codon < 65536) }
    requires e_in_bounds { length (one_field (tagged 4 (each exception_bytes (exception_list e)))) ≤ length out.old }
    ensures value { result ≡ length (one_field (tagged 4 (each exception_bytes (exception_list e)))) }
    ensures out_after { out.new ≡ over (one_field (tagged 4 (each exception_bytes (exception_list e)))) out.old }
{
    if e.count == 0 {
        return 0;
    }
    let mut content = [0u8; 48];
    let len = write_exceptions(e, &mut content);
    write_field(4, &content[..len], out)
}
