// "Port order and changed forms": the altered transcript is built into a second buffer, which the caller lends.
#![tactic(auto)]

ghost use Rattle.std.specs.Prelude.{◌≡◌, ◌++◌, ◌+◌, ◌-◌, ◌≤◌, length, drop};
ghost use Rattle.rules.specs.Bytes.{over};
ghost use Rattle.rules.specs.Packed.{letters_by};
ghost use Rattle.edits.specs.Plans.{goes_in};
ghost use Rattle.transcript.specs.Carrying.{Sourced, Fits, carried_by};

use edits::plans::{Plan, Source};
use packed::{copy_letters, size_of, turn_letters};
use rules::Form;

// Writes what goes in from the buffer's start: new bases, a copy or a reverse complement.
pub fn write_put(letters: &[u8], form: Form, plan: Plan, new: &[u8], out: &mut [u8]) -> usize
    requires sourced { Sourced plan (letters_by form letters.now) new.now }
    requires kept_in_bounds { plan.kept ≤ length out.old }
    ensures value { result ≡ plan.kept }
    ensures out_after { out.new ≡ over (goes_in plan (letters_by form letters.now) new.now) out.old }
{
    let source = plan.source;
    let start = plan.start;
    let end = plan.end;
    let kept = plan.kept;
    match source {
        Source::New => bytewise::copy(&new[..kept], out),
        Source::Copy => {
            let last = start + kept;
            copy_letters(letters, form, start, last, out);
            kept
        }
        Source::Turned => {
            let first = end - kept;
            turn_letters(letters, form, first, end, out);
            kept
        }
    }
}

// Writes what goes in, and behind it the letters that stay behind the edit, from the start of the rest of the buffer.
pub fn write_rest(letters: &[u8], form: Form, plan: Plan, new: &[u8], rest: &mut [u8]) -> usize
    requires sourced { Sourced plan (letters_by form letters.now) new.now }
    requires to_in_bounds { (plan.to ≤ length (letters_by form letters.now)) × (plan.kept + (length (letters_by form letters.now) - plan.to) ≤ length rest.old) }
    ensures value { result ≡ plan.kept + (length (letters_by form letters.now) - plan.to) }
    ensures rest_after { rest.new ≡ over (goes_in plan (letters_by form letters.now) new.now ++ drop plan.to (letters_by form letters.now)) rest.old }
{
    let kept = write_put(letters, form, plan, new, rest);
    let to = plan.to;
    let size = size_of(letters, form);
    copy_letters(letters, form, to, size, &mut rest[kept..]);
    kept + (size - to)
}

// Writes the altered transcript from the buffer's start: the kept prefix, then the rest of the buffer is lent on.
pub fn write_transcript(
    letters: &[u8],
    form: Form,
    plan: Plan,
    new: &[u8],
    transcript: &mut [u8],
) -> usize
    requires { Fits plan (letters_by form letters.now) new.now (length transcript.old) }
    ensures value { result ≡ length (carried_by plan (letters_by form letters.now) new.now) }
    ensures transcript_after { transcript.new ≡ over (carried_by plan (letters_by form letters.now) new.now) transcript.old }
{
    let from = plan.from;
    copy_letters(letters, form, 0, from, transcript);
    from + write_rest(letters, form, plan, new, &mut transcript[from..])
}
