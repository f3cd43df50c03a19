// The stop cut: what goes in ends with its first stop codon. It is the letters start..end of a reference, or of the new bases.
#![tactic(auto)]

ghost use Rattle.std.specs.Prelude.{◌+◌, ◌-◌, ◌<◌, ◌≤◌, ◌≡◌, get_or};
ghost use Rattle.rules.specs.Altered.{part, framed};
ghost use Rattle.rules.specs.Packed.{letters_by};
ghost use Rattle.packed.specs.Halves.{InLetters};
ghost use Rattle.cuts.specs.Cuts.{cut_of, Cuts};

use codon_reader::read_codon;
use packed::{first_stop_by, set_at};
use rules::{Exceptions, Form};

// Whether a `*` appears, and how many of the bases stay.
#[derive(Clone, Copy)]
pub struct Cut {
    pub found: bool,
    pub kept: usize,
}

// The set of N.
const ANY: usize = 15;

// The residue of the first codon, of `frame` letters N and the first bases.
fn framed_codon(
    letters: &[u8],
    form: Form,
    start: usize,
    end: usize,
    frame: usize,
    table: usize,
) -> u8
    requires in_letters { InLetters form letters.now start end }
    requires le_frame { (1 ≤ frame) × (frame < 3) }
    requires bound { 3 ≤ frame + (end - start) }
    requires table_bound { table < 3 }
    ensures { result ≡ get_or (framed table frame (part start end (letters_by form letters.now))) 0 0 }
{
    let a = set_at(letters, form, start);
    if frame == 2 {
        return read_codon(table, ANY, ANY, a);
    }
    let b = set_at(letters, form, start + 1);
    read_codon(table, ANY, a, b)
}

// Exceptions play no part in the cut.
pub fn no_exceptions() -> Exceptions
    ensures { result.count ≡ 0 }
{
    Exceptions::none()
}

// The cut of bases that begin with a codon. Exceptions play no part in it.
fn cut_in_frame(
    letters: &[u8],
    form: Form,
    start: usize,
    end: usize,
    table: usize,
    plain: bool,
) -> Cut
    requires in_letters { InLetters form letters.now start end }
    requires cuts { Cuts table plain (part start end (letters_by form letters.now)) }
    ensures { result ≡ cut_of table 0 (part start end (letters_by form letters.now)) }
{
    let size = end - start;
    let stop = first_stop_by(letters, form, start, end, table, plain, no_exceptions());
    if stop < size / 3 {
        return Cut {
            found: true,
            kept: (stop + 1) * 3,
        };
    }
    Cut {
        found: false,
        kept: size,
    }
}

// The cut of bases that go in behind `frame` bases of a codon, which count as letters N.
pub fn insert_stop_seq_end(
    letters: &[u8],
    form: Form,
    start: usize,
    end: usize,
    frame: usize,
    table: usize,
    plain: bool,
) -> Cut
    requires in_letters { InLetters form letters.now start end }
    requires frame_bound { frame < 3 }
    requires cuts { Cuts table plain (part start end (letters_by form letters.now)) }
    ensures { result ≡ cut_of table frame (part start end (letters_by form letters.now)) }
{
    if frame == 0 {
        return cut_in_frame(letters, form, start, end, table, plain);
    }
    let size = end - start;
    let first = 3 - frame;
    if size < first {
        return Cut {
            found: false,
            kept: size,
        };
    }
    if framed_codon(letters, form, start, end, frame, table) == b'*' {
        return Cut {
            found: true,
            kept: first,
        };
    }
    let cut = cut_in_frame(letters, form, start + first, end, table, plain);
    Cut {
        found: cut.found,
        kept: first + cut.kept,
    }
}
