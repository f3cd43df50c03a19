// "Reference": refusals 1 to 6 and 28, and the reference protein R, read once.
#![tactic(auto)]

mod early;
mod protein;
mod stop;

ghost use Rattle.std.specs.Prelude.{◌≡◌, ◌<◌, length};
ghost use Rattle.rules.specs.Bytes.{over};
ghost use Rattle.rules.specs.Refusal.{reference_refusal};
ghost use Rattle.rules.specs.Packed.{letters_by};
ghost use Rattle.rules.specs.Refusals.{told};
ghost use Rattle.rules.specs.Views.{reference_of};
ghost use Rattle.reference.specs.Known.{HasRoom, protein_unless, checked_of};

pub use bounds::{are_bounds, fit_exceptions};
use protein::read_reference;
use rules::{Cds, Exceptions, Form, Refusal};
pub use stop::{is_short_end, judge_reference};

// What is known of a reference that isn't refused; its letters, in their form, its exceptions and R are lent beside it. `residues` is R's length. The letters
// are plain if each is one base. `several` is whether R has more than one stop.
#[derive(Clone, Copy)]
pub struct Known {
    pub form: Form,
    pub cds: Cds,
    pub residues: usize,
    pub plain: bool,
    pub several: bool,
}

// 1 to 5, 6 or 28, or what is known of the reference from then on. R is in the buffer unless the reference is refused.
pub fn check_reference(
    letters: &[u8],
    form: Form,
    cds: Cds,
    e: Exceptions,
    longest: usize,
    protein: &mut [u8],
) -> Result<Known, Refusal>
    requires longest_bound { longest < 4294967296 }
    requires has_room { HasRoom longest (letters_by form letters.now) (length protein.old) }
    ensures value { told result ≡ checked_of longest form (letters_by form letters.now) cds e }
    ensures protein_after { protein.new ≡ over (protein_unless (reference_refusal longest (reference_of (letters_by form letters.now) cds e)) (reference_of (letters_by form letters.now) cds e)) protein.old }
{
    let plain = judge_reference(letters, form, cds, e, longest)?;
    Ok(read_reference(letters, form, cds, e, plain, protein))
}
