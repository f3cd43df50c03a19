// The exceptions that bytes store, three bytes each, as the value that calls take.
ghost use Rattle.std.specs.Prelude.{◌≡◌, ◌+◌, ◌*◌, ◌≤◌, length};
ghost use Rattle.stored_fields.specs.Held.{exception_at, exceptions_of};

use byte_numbers::two_bytes;
use rules::{Exception, Exceptions};

// Codon, two bytes; residue.
fn exception_at(s: &[u8], i: usize) -> Exception
    requires { i * 3 + 3 ≤ length s.now }
    ensures { result ≡ exception_at s.now i }
{
    let residue = s[i * 3 + 2];
    Exception {
        codon: two_bytes(s, i * 3) as u32,
        residue,
    }
}

// At most sixteen. More are counted and not held, and bytes that aren't three each count as seventeen: a call refuses both with 5.
pub fn exceptions_in(s: &[u8]) -> Exceptions
    ensures { result ≡ exceptions_of s.now }
{
    let mut all = Exceptions::none().all;
    if s.len() % 3 != 0 {
        return Exceptions { all, count: 17 };
    }
    let count = s.len() / 3;
    if 16 < count {
        return Exceptions { all, count };
    }
    for i in 0..count {
        all[i] = exception_at(s, i);
    }
    Exceptions { all, count }
}
