// The reference protein R, and how many stops it has.
ghost use Rattle.std.specs.Prelude.{◌≡◌, ◌≤◌, ltb, length};
ghost use Rattle.rules.specs.Bytes.{byte, all, count, over};
ghost use Rattle.rules.specs.Translation.{residue_count};
ghost use Rattle.rules.specs.Reference.{cds_size, reference_protein};
ghost use Rattle.rules.specs.Packed.{letters_by};
ghost use Rattle.rules.specs.Views.{bare, reference_of};
ghost use Rattle.letters.specs.Sets.{is_base};
ghost use Rattle.reference.specs.Known.{known_of, Readable};

use crate::Known;
use numbers::thirds;
use packed::write_residues;
use rules::{Cds, Exceptions, Form};

// The stops of a block, in bytes, so that the loop goes many residues at a time.
fn block_stops(s: &[u8]) -> u8
    requires { length s.now ≤ 255 }
    ensures { result ≡ count (byte "*") s.now }
{
    let mut stops = 0;
    for residue in s {
        stops += u8::from(*residue == b'*');
    }
    stops
}

// Whether a protein has more than one stop.
fn several_stops(protein: &[u8]) -> bool
    ensures { result ≡ ltb 1 (count (byte "*") protein.now) }
{
    let mut stops = 0;
    for block in protein.chunks(255) {
        stops += usize::from(block_stops(block));
    }
    1 < stops
}

// Reads R into the buffer, and tells what is known of the reference from then on.
pub(crate) fn read_reference(
    letters: &[u8],
    form: Form,
    c: Cds,
    e: Exceptions,
    plain: bool,
    protein: &mut [u8],
) -> Known
    requires readable { Readable (letters_by form letters.now) c e }
    requires plain_value { plain ≡ all is_base (letters_by form letters.now) }
    requires c_in_bounds { residue_count (cds_size (bare (letters_by form letters.now) c)) ≤ length protein.old }
    ensures value { result ≡ known_of form (letters_by form letters.now) c e }
    ensures protein_after { protein.new ≡ over (reference_protein (reference_of (letters_by form letters.now) c e)) protein.old }
{
    let first = c.cs - 1;
    let end = c.ce;
    let residues = thirds(end - first);
    write_residues(letters, form, first, end, c.table, plain, e, protein);
    let several = several_stops(&protein[..residues]);
    Known {
        form,
        cds: c,
        residues,
        plain,
        several,
    }
}
