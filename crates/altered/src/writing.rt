// Letters of the altered transcript written to a block: of what goes in, or behind it, where they lie side by side.
ghost use Rattle.std.specs.Prelude.{◌≡◌, ◌+◌, ◌≤◌, length};
ghost use Rattle.rules.specs.Altered.{part};
ghost use Rattle.rules.specs.Packed.{letters_by};
ghost use Rattle.edits.specs.Plans.{goes_in};
ghost use Rattle.transcript.specs.Carrying.{Sourced, carried_by};
ghost use Rattle.altered.specs.Over.{Makes, Stretch};

use edits::plans::{Plan, Source};
use packed::{copy_letters, turn_letters};
use rules::Form;

// Fills a buffer with letters of what goes in, from place i of it on.
fn write_inside(letters: &[u8], form: Form, plan: Plan, new: &[u8], i: usize, out: &mut [u8])
    requires sourced { Sourced plan (letters_by form letters.now) new.now }
    requires out_bound { i + length out.old ≤ plan.kept }
    ensures { out.new ≡ part i (i + length out.old) (goes_in plan (letters_by form letters.now) new.now) }
{
    let source = plan.source;
    let start = plan.start;
    let end = plan.end;
    let n = out.len();
    match source {
        Source::New => {
            let last = i + n;
            bytewise::copy(&new[i..last], out);
        }
        Source::Copy => {
            let first = start + i;
            copy_letters(letters, form, first, first + n, out);
        }
        Source::Turned => {
            let last = end - i;
            turn_letters(letters, form, last - n, last, out);
        }
    }
}

// Fills a buffer with letters of the transcript that a plan makes, from a place on, which lie in what goes in or behind it.
pub fn write_stretch(letters: &[u8], form: Form, plan: Plan, new: &[u8], at: usize, out: &mut [u8])
    requires makes { Makes plan (letters_by form letters.now) new.now }
    requires stretch { Stretch plan at (length out.old) (length (carried_by plan (letters_by form letters.now) new.now)) }
    ensures { out.new ≡ part at (at + length out.old) (carried_by plan (letters_by form letters.now) new.now) }
{
    let back = plan.from + plan.kept;
    if at < back {
        write_inside(letters, form, plan, new, at - plan.from, out);
        return;
    }
    let first = at - back + plan.to;
    copy_letters(letters, form, first, first + out.len(), out);
}
