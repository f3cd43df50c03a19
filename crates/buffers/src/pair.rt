// The same of two edits, whose answer has two buffers.
ghost use Rattle.std.specs.Prelude.{◌≡◌, ◌-◌, ◌≤◌};
ghost use Rattle.rules.specs.Bytes.{first_number};
ghost use Rattle.rules.specs.Pair.{pair_room_tests};
ghost use Rattle.rules.specs.Refusals.{refusal_of};
ghost use Rattle.reference.specs.Bounds.{Bounded};

use numbers::thirds;
use rules::{Cds, Refusal};

// 11 or 12 for a pair's length and the room of the two buffers.
#[tactic(auto, unfolding(rules::specs::Pair::pair_room_tests, rules::specs::Bytes::first_number, rules::specs::Translation::residue_count))]
pub fn pair_room_refusal(
    c: Cds,
    length: usize,
    transcript: usize,
    altered: usize,
) -> Result<(), Refusal>
    requires bounded { Bounded c }
    requires cs_in_bounds { c.cs - 1 ≤ length }
    ensures { refusal_of result ≡ first_number (pair_room_tests c.cs length (record { transcript = transcript; altered = altered })) }
{
    if transcript < length {
        return Err(Refusal::TranscriptRoom);
    }
    if altered < thirds(length - (c.cs - 1)) {
        return Err(Refusal::ProteinRoom);
    }
    Ok(())
}
