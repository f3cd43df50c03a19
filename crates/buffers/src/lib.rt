// Refusals 11 and 12: whether the buffers have room for what an edit writes, or two.
#![tactic(auto)]

mod pair;

ghost use Rattle.std.specs.Prelude.{◌+◌, ◌-◌, ◌≤◌, ◌≡◌};
ghost use Rattle.rules.specs.Bytes.{first_number};
ghost use Rattle.rules.specs.Refusal.{room_tests};
ghost use Rattle.rules.specs.Refusals.{refusal_of};
ghost use Rattle.reference.specs.Bounds.{Bounded};

use numbers::thirds;
pub use pair::pair_room_refusal;
use rules::{Cds, Refusal};

// 11 or 12 for an altered length and the room of the three buffers.
#[tactic(auto, using(reference::proofs::Judging::number_some), unfolding(rules::specs::Refusal::room_tests, rules::specs::Pair::pair_room_tests, rules::specs::Bytes::first_number, rules::specs::Translation::residue_count))]
pub fn room_refusal(
    c: Cds,
    length: usize,
    transcript: usize,
    reference: usize,
    altered: usize,
) -> Result<(), Refusal>
    requires bounded { Bounded c }
    requires cs_in_bounds { c.cs - 1 ≤ length }
    ensures { refusal_of result ≡ first_number (room_tests (c.ce + 1 - c.cs) c.cs length (record { transcript = transcript; reference = reference; altered = altered })) }
{
    pair_room_refusal(c, length, transcript, altered)?;
    if reference < thirds(c.ce - (c.cs - 1)) {
        return Err(Refusal::ProteinRoom);
    }
    Ok(())
}
