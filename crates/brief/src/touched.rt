// The letters of codons that an edit touches.
ghost use Rattle.std.specs.Prelude.{◌≡◌, ◌++◌, ◌+◌, ◌-◌, ◌≤◌, length};
ghost use Rattle.rules.specs.Bytes.{over};
ghost use Rattle.rules.specs.Altered.{part};
ghost use Rattle.edits.specs.Plans.{goes_in};
ghost use Rattle.transcript.specs.Carrying.{Sourced, carried_by};
ghost use Rattle.brief.specs.Brief.{Touches};

use edits::plans::Plan;
use rules::Form;
use transcript::write_put;

// Writes what goes in, and `more` letters behind the edit, from the start of the rest of the buffer.
fn write_behind(letters: &[u8], plan: Plan, new: &[u8], more: usize, rest: &mut [u8]) -> usize
    requires sourced { Sourced plan letters.now new.now }
    requires more_in_bounds { (plan.to + more ≤ length letters.now) × (plan.kept + more ≤ length rest.old) }
    ensures value { result ≡ plan.kept + more }
    ensures rest_after { rest.new ≡ over (goes_in plan letters.now new.now ++ part plan.to (plan.to + more) letters.now) rest.old }
{
    let kept = write_put(letters, Form::Bytes, plan, new, rest);
    let to = plan.to;
    let last = to + more;
    kept + bytewise::copy(&letters[to..last], &mut rest[kept..])
}

// Writes the letters start..edge of the altered transcript from the buffer's start: of the reference up to the edit, what goes in, and of the
// reference behind it.
pub(crate) fn write_touched(
    letters: &[u8],
    plan: Plan,
    new: &[u8],
    start: usize,
    edge: usize,
    out: &mut [u8],
) -> usize
    requires touches { Touches plan letters.now new.now start edge }
    requires start_in_bounds { edge - start ≤ length out.old }
    ensures value { result ≡ edge - start }
    ensures out_after { out.new ≡ over (part start edge (carried_by plan letters.now new.now)) out.old }
{
    let from = plan.from;
    let more = edge - (from + plan.kept);
    let n = bytewise::copy(&letters[start..from], out);
    n + write_behind(letters, plan, new, more, &mut out[n..])
}
