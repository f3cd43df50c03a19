// The line so far, gathered in a buffer that keeps no more of it than tells that it is too long; and what is put out.
#![tactic(auto)]

ghost use Rattle.std.specs.Prelude.{◌≡◌, ◌++◌, ◌≤◌, length, take};
ghost use Rattle.rules.specs.Bytes.{over};
ghost use Rattle.rules.specs.Refusals.{told};
ghost use Rattle.rules.specs.Answer.{written_of, bytes_of};
ghost use Rattle.text_answers.specs.Rooms.{line_room};
ghost use Rattle.text_gather.specs.Steps.{within, Gathers};

use rules::Refusal;

// How many bytes of the line are held, and how many of the input were taken.
#[derive(Clone, Copy)]
pub struct Gathered {
    pub held: usize,
    pub taken: usize,
}

// Further bytes of the line, as far as there is room. The result is how many bytes are held.
fn hold(line: &mut [u8], held: usize, part: &[u8]) -> usize
    requires { held ≤ length line.old }
    ensures line_after { take result line.new ≡ take (length line.old) (take held line.old ++ part.now) }
    ensures upper_bound { result ≤ length line.old }
{
    let n = part.len().min(line.len() - held);
    held + bytewise::copy(&part[..n], &mut line[held..])
}

// Takes the bytes of the line: those before the next line feed, or all.
pub fn gather(line: &mut [u8], held: usize, input: &[u8]) -> Gathered
    requires { (length line.old ≡ line_room) × (held ≤ line_room) }
    ensures gathers { Gathers (take held line.old) (take result.held line.new) input.now result.taken }
    ensures held_le_line_room { (result.held ≤ line_room) × (length line.new ≡ line_room) }
{
    let end = bytewise::find(input, 0, input.len(), b'\n');
    Gathered {
        held: hold(line, held, &input[..end]),
        taken: end,
    }
}

// Puts bytes out, or answers 15 where there is no room for them.
pub fn put(s: &[u8], out: &mut [u8]) -> Result<usize, Refusal>
    ensures value { told result ≡ written_of (within s.now (length out.old)) }
    ensures out_after { out.new ≡ over (bytes_of (within s.now (length out.old))) out.old }
{
    if out.len() < s.len() {
        return Err(Refusal::Output);
    }
    Ok(bytewise::copy(s, out))
}
