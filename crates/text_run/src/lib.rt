// The text program over memory.
#![tactic(auto)]

ghost use Rattle.std.specs.Prelude.{◌≡◌, ◌≤◌, ◌<◌, length, IfSome, IfNone};
ghost use Rattle.rules.specs.Bytes.{over};
ghost use Rattle.rules.specs.Refusals.{told};
ghost use Rattle.rules.specs.Answer.{written_of, bytes_of};
ghost use Rattle.rules.specs.Run.{run};
ghost use Rattle.text_answers.specs.Rooms.{answer_room};
ghost use Rattle.text_gather.specs.Steps.{printed_last};
ghost use Rattle.text_lines.specs.Memory.{stage_of, Rooms, Keeps};
ghost use Rattle.text_run.specs.Runs.{run_within, Counted, Wrote};

use rules::Refusal;
use text_answers::{ANSWER, LETTERS, LINE, PROTEIN};
use text_lines::{State, Stepped, finish, start, step};

// The state behind the last byte, and how many bytes were printed for the lines that ended.
#[derive(Clone, Copy)]
struct Count {
    state: State,
    total: usize,
}

// Counts what the lines of an input print that end in it; None once that is too much. They are printed to `piece`, a part at a time.
fn count_lines(
    line: &mut [u8],
    letters: &mut [u8],
    protein: &mut [u8],
    piece: &mut [u8],
    input: &[u8],
    most: usize,
) -> Option<Count>
    requires rooms { Rooms line.old letters.old protein.old }
    requires piece_len { length piece.old ≡ answer_room }
    ensures counted { IfSome result (λ k. Counted k.state input.now line.new letters.new protein.new (length input.now) k.total most) }
    ensures too_many { IfNone result (most < length (run input.now)) }
    ensures piece_stays { length piece.new ≡ answer_room }
{
    let mut state = start();
    let mut at = 0;
    let mut total = 0;
    // Kept: no for, since each turn finds how far it goes.
    while at < input.len() {
        let stepped = step(state, line, letters, protein, &input[at..], piece);
        state = stepped.state;
        at += stepped.taken;
        if most - total < stepped.used {
            return None;
        }
        total += stepped.used;
    }
    Some(Count { state, total })
}

// How many bytes are printed at the input's end: any answer has room in `piece`.
fn last_size(
    state: State,
    line: &mut [u8],
    letters: &mut [u8],
    protein: &mut [u8],
    piece: &mut [u8],
) -> usize
    requires rooms { Rooms line.old letters.old protein.old }
    requires keeps { Keeps state letters.old protein.old }
    requires piece_len { length piece.old ≡ answer_room }
    ensures { result ≡ length (printed_last (stage_of state line.old letters.old)) }
{
    finish(state, line, letters, protein, piece).unwrap_or(0)
}

// How many bytes the run of an input prints, or 15 if they are more than `most`.
fn run_size(input: &[u8], most: usize) -> Result<usize, Refusal>
    ensures { told result ≡ written_of (run_within input.now most) }
{
    let mut line = [0u8; LINE];
    let mut letters = [0u8; LETTERS];
    let mut protein = [0u8; PROTEIN];
    let mut piece = [0u8; ANSWER];
    let Some(counted) = count_lines(
        &mut line,
        &mut letters,
        &mut protein,
        &mut piece,
        input,
        most,
    ) else {
        return Err(Refusal::Output);
    };
    let last = last_size(
        counted.state,
        &mut line,
        &mut letters,
        &mut protein,
        &mut piece,
    );
    if most - counted.total < last {
        return Err(Refusal::Output);
    }
    Ok(counted.total + last)
}

// The answers to the lines that end in an input. One step takes all, since there is room for the whole run.
fn write_lines(
    line: &mut [u8],
    letters: &mut [u8],
    protein: &mut [u8],
    input: &[u8],
    out: &mut [u8],
) -> Stepped
    requires rooms { Rooms line.old letters.old protein.old }
    requires input_in_bounds { length (run input.now) ≤ length out.old }
    ensures keeps { Keeps result.state letters.new protein.new }
    ensures wrote { Wrote (stage_of result.state line.new letters.new) input.now result.used out.old out.new }
{
    step(start(), line, letters, protein, input, out)
}

fn write_run(input: &[u8], out: &mut [u8])
    requires { length (run input.now) ≤ length out.old }
    ensures { out.new ≡ over (run input.now) out.old }
{
    let mut line = [0u8; LINE];
    let mut letters = [0u8; LETTERS];
    let mut protein = [0u8; PROTEIN];
    let stepped = write_lines(&mut line, &mut letters, &mut protein, input, out);
    let used = stepped.used;
    let _ = finish(
        stepped.state,
        &mut line,
        &mut letters,
        &mut protein,
        &mut out[used..],
    );
}

// The whole run of an input, or 15 if what it prints doesn't fit; then the buffer is as it was.
pub fn run(input: &[u8], out: &mut [u8]) -> Result<usize, Refusal>
    ensures value { told result ≡ written_of (run_within input.now (length out.old)) }
    ensures out_after { out.new ≡ over (bytes_of (run_within input.now (length out.old))) out.old }
{
    let size = run_size(input, out.len())?;
    write_run(input, out);
    Ok(size)
}
