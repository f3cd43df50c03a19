// What the module answers with the longest edit of a call (E12): 62 before 1 for a number that is none, else as without one, of the new bases as
// `bases_within` hands them on.
#![tactic(auto)]

mod one;
mod pair;
mod proposed;

ghost use Rattle.std.specs.Prelude.{◌≡◌, true, false, IfOk, IfErr};
ghost use Rattle.rules.specs.declared.Refusal.TheVariants.{Setting};
ghost use Rattle.rules.specs.Longest.{is_given_longest};
ghost use Rattle.rules.proofs.WithLongest.{bases_within};

use longest::{bases_within, is_given_longest};
pub use one::{panel_within, record_within, transcript_within};
pub use pair::pair_within;
pub use proposed::{Claim, check_within};
use rules::{Kind, Refusal};

// The new bases as they are handed on, or 62 for a longest edit that is none.
fn given_within(longest: usize, kind: Kind, new: &[u8]) -> Result<&[u8], Refusal>
    ensures handed { IfOk result (λ given. (is_given_longest longest ≡ true) × (given.now ≡ bases_within longest kind new.now)) }
    ensures refused { IfErr result (λ refused. (is_given_longest longest ≡ false) × (refused ≡ Setting)) }
{
    if !is_given_longest(longest) {
        return Err(Refusal::Setting);
    }
    Ok(bases_within(longest, kind, new))
}
