// The whole form: its fields one behind the other.
ghost use Rattle.std.specs.Prelude.{◌≡◌, ◌≤◌, length};
ghost use Rattle.rules.specs.Bytes.{over};
ghost use Rattle.rules.specs.Packed.{letters_by};
ghost use Rattle.rules.specs.Storing.{stored_form};
ghost use Rattle.rules.specs.Views.{reference_of};
ghost use Rattle.storing.specs.Forming.{Clear};

use crate::fields_of::write_tag;
use rules::{Cds, Exceptions, Form};

// Every field that isn't empty, in rising tags.
pub(crate) fn write_form(letters: &[u8], form: Form, c: Cds, e: Exceptions, out: &mut [u8]) -> usize
    requires clear { Clear (letters_by form letters.now) c e }
    requires e_in_bounds { length (stored_form (reference_of (letters_by form letters.now) c e)) ≤ length out.old }
    ensures value { result ≡ length (stored_form (reference_of (letters_by form letters.now) c e)) }
    ensures out_after { out.new ≡ over (stored_form (reference_of (letters_by form letters.now) c e)) out.old }
{
    let mut at = 0;
    for tag in 1..9u8 {
        at += write_tag(tag, letters, form, c, e, &mut out[at..]);
    }
    at
}
