// References whose letters stand in three parts, one behind the other: 1 to 5, 6 or 28, judged where the letters stand. A codon may lie across
// two parts.
#![tactic(auto)]

mod early;
mod late;
mod pieces;
mod residues;

ghost use Rattle.std.specs.Prelude.{◌≡◌};
ghost use Rattle.rules.specs.Refusal.{limits, reference_refusal};
ghost use Rattle.rules.specs.Refusals.{refusal_of};
ghost use Rattle.rules.specs.Views.{reference_of};
ghost use Rattle.parts.specs.Parts.{in_parts};

use early::early_refusal;
use late::end_refusal;
use rules::{Cds, Exceptions, Refusal};

// The first of 1 to 5, 6 or 28 that applies.
pub fn judge_parts(a: &[u8], b: &[u8], c: &[u8], cds: Cds, e: Exceptions) -> Result<(), Refusal>
    ensures { refusal_of result ≡ reference_refusal limits.longest (reference_of (in_parts a.now b.now c.now) cds e) }
{
    early_refusal(a, b, c, cds, e)?;
    end_refusal(a, b, c, cds, e)
}
