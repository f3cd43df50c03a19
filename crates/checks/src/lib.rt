// What is decided of an edit whose record is checked, before a byte is written: its refusals, 26 among them, or what it does.
#![tactic(auto)]

mod answer;

ghost use Rattle.std.specs.Prelude.{◌≡◌};
ghost use Rattle.rules.specs.Check.{is_changed};
ghost use Rattle.rules.specs.Refusal.{limits};
ghost use Rattle.rules.specs.Refusals.{told};
ghost use Rattle.rules.specs.Packed.{letters_by};
ghost use Rattle.rules.specs.Views.{asked, reference_of};
ghost use Rattle.reference.specs.Known.{Knows};
ghost use Rattle.altseq.specs.Carried.{protein_by};
ghost use Rattle.checks.specs.Changing.{changing_in, Changes};

use altered::moved_over;
use altseq::decide_in;
pub use answer::{Proposed, check_altseq};
use edits::plans::Plan;
use reference::Known;
use rules::{Edit, Exceptions, Refusal};
use silent::keeps_protein;

// The bytes lent for the altered transcript, R and A.
#[derive(Clone, Copy)]
pub struct Room {
    pub transcript: usize,
    pub reference: usize,
    pub altered: usize,
}

// Whether the protein that a plan makes is there, and another than R.
fn changes(
    letters: &[u8],
    known: Known,
    e: Exceptions,
    protein: &[u8],
    plan: Plan,
    new: &[u8],
) -> bool
    requires { Changes (letters_by known.form letters.now) known e protein.now plan new.now }
    ensures { result ≡ is_changed protein.now (protein_by (reference_of (letters_by known.form letters.now) known.cds e) plan new.now) }
{
    let c = known.cds;
    let first = c.cs - 1;
    if plan.length <= first {
        return false;
    }
    let form = known.form;
    let moved = moved_over(letters, form, plan, new, first, e);
    !keeps_protein(letters, form, c, e, moved, protein, plan, new)
}

// 7 to 10, 26 for an Unknown, 11 and 12, 26 where the answer isn't Changed, or what an edit of a checked reference does.
pub fn decide_changing(
    letters: &[u8],
    known: Known,
    e: Exceptions,
    protein: &[u8],
    edit: Edit,
    new: &[u8],
    room: Room,
) -> Result<Plan, Refusal>
    requires { Knows limits (letters_by known.form letters.now) known e protein.now }
    ensures { told result ≡ changing_in (reference_of (letters_by known.form letters.now) known.cds e) (asked edit new.now) (record { transcript = room.transcript; reference = room.reference; altered = room.altered }) }
{
    let Some(plan) = decide_in(
        letters,
        known,
        edit,
        new,
        room.transcript,
        room.reference,
        room.altered,
    )?
    else {
        return Err(Refusal::NotChanged);
    };
    if changes(letters, known, e, protein, plan, new) {
        Ok(plan)
    } else {
        Err(Refusal::NotChanged)
    }
}
