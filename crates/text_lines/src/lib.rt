// "Text program": the run as a step over pieces of input of any size. Between two steps a state is kept, and three buffers: the line so far, and
// the letters and the protein R of the reference.
#![tactic(auto)]

mod edit;
mod open;

ghost use Rattle.std.specs.Prelude.{◌≡◌, List, [], ◌∷◌, ℕ, ◌≤◌, length};
ghost use Rattle.rules.specs.Bytes.{over};
ghost use Rattle.rules.specs.Refusals.{told};
ghost use Rattle.rules.specs.Answer.{written_of, bytes_of};
ghost use Rattle.rules.specs.Run.{line_feed};
ghost use Rattle.text_answers.specs.Rooms.{line_room};
ghost use Rattle.text_answers.specs.Stage.{Stage, is_ended};
ghost use Rattle.text_gather.specs.Steps.{last, Steps};
ghost use Rattle.text_lines.specs.Memory.{fresh, stage_of, Rooms, Keeps, first_end, Fills, Begins};

use edit::edit_some;
use open::open_some;
use rules::Refusal;
use text_answers::Phase;

// `held` bytes of the line so far are kept, of a refused first line too; one more than the longest line has stands for any larger number.
#[derive(Clone, Copy)]
pub struct State {
    pub phase: Phase,
    pub held: usize,
}

// The state that a step leaves, how many bytes of its piece it took, and how many it put out.
#[derive(Clone, Copy)]
pub struct Stepped {
    pub state: State,
    pub taken: usize,
    pub used: usize,
}

// Before the first byte.
pub fn start() -> State
    ensures { result ≡ fresh }
{
    State {
        phase: Phase::Opening,
        held: 0,
    }
}

// Whether the run has ended: whatever comes is answered nothing.
pub fn is_over(state: State) -> bool
    ensures { (line letters : List ℕ) → result ≡ is_ended (stage_of state line letters) }
{
    matches!(state.phase, Phase::Ended)
}

// A step up to the end of the first line; behind that it takes nothing.
fn begin(
    state: State,
    line: &mut [u8],
    letters: &mut [u8],
    protein: &mut [u8],
    input: &[u8],
    out: &mut [u8],
) -> Stepped
    requires rooms { Rooms line.old letters.old protein.old }
    requires keeps { Keeps state letters.old protein.old }
    ensures still_keeps { Keeps result.state letters.new protein.new }
    ensures begins { Begins (stage_of state line.old letters.old) result.state line.new letters.new
        input.now result.taken result.used out.old out.new }
    ensures fills { Fills (first_end (stage_of state line.old letters.old) input.now) letters.old letters.new protein.old protein.new }
{
    match state.phase {
        Phase::Opening => open_some(state.held, line, letters, protein, input, out),
        _ => Stepped {
            state,
            taken: 0,
            used: 0,
        },
    }
}

// Goes on behind the first line, from where a step has begun.
fn go_on(
    begun: Stepped,
    line: &mut [u8],
    letters: &[u8],
    protein: &[u8],
    input: &[u8],
    out: &mut [u8],
) -> Stepped
    requires line_len { length line.old ≡ line_room }
    requires keeps { Keeps begun.state letters.now protein.now }
    requires taken_in_bounds { (begun.taken ≤ length input.now) × (begun.used ≤ length out.old) }
    ensures still_keeps { Keeps result.state letters.now protein.now }
    ensures steps { (x : Stage) (old : List ℕ) → Begins x begun.state line.old letters.now input.now begun.taken begun.used old out.old
        → Steps x (stage_of result.state line.new letters.now) input.now result.taken result.used old out.new }
{
    let state = begun.state;
    let phase = state.phase;
    let taken = begun.taken;
    let used = begun.used;
    match phase {
        Phase::Opening => begun,
        Phase::Editing { known, size } => {
            let moved = edit_some(
                known,
                size,
                state.held,
                line,
                letters,
                protein,
                &input[taken..],
                &mut out[used..],
            );
            Stepped {
                state: State {
                    phase,
                    held: moved.held,
                },
                taken: taken + moved.taken,
                used: used + moved.used,
            }
        }
        Phase::Ended => Stepped {
            state,
            taken: input.len(),
            used,
        },
    }
}

// Takes as many bytes of the input as there is room for the answers of, and puts these out.
pub fn step(
    state: State,
    line: &mut [u8],
    letters: &mut [u8],
    protein: &mut [u8],
    input: &[u8],
    out: &mut [u8],
) -> Stepped
    requires rooms { Rooms line.old letters.old protein.old }
    requires keeps { Keeps state letters.old protein.old }
    ensures still_keeps { Keeps result.state letters.new protein.new }
    ensures steps { Steps (stage_of state line.old letters.old) (stage_of result.state line.new letters.new)
        input.now result.taken result.used out.old out.new }
    ensures fills { Fills (first_end (stage_of state line.old letters.old) input.now) letters.old letters.new protein.old protein.new }
{
    let begun = begin(state, line, letters, protein, input, out);
    go_on(begun, line, letters, protein, input, out)
}

// The answer to a line that is held, as if a line feed ended it; 15 if there is no room for it.
fn finish_line(
    state: State,
    line: &mut [u8],
    letters: &mut [u8],
    protein: &mut [u8],
    out: &mut [u8],
) -> Result<usize, Refusal>
    requires rooms { Rooms line.old letters.old protein.old }
    requires keeps { Keeps state letters.old protein.old }
    requires some_held { state.held ≡ 0 → ⊥ }
    ensures value { told result ≡ written_of (last (stage_of state line.old letters.old) (length out.old)) }
    ensures out_after { out.new ≡ over (bytes_of (last (stage_of state line.old letters.old) (length out.old))) out.old }
    ensures fills { Fills (first_end (stage_of state line.old letters.old) (line_feed ∷ [])) letters.old letters.new protein.old protein.new }
{
    let stepped = step(state, line, letters, protein, b"\n", out);
    if stepped.taken == 0 {
        return Err(Refusal::Output);
    }
    Ok(stepped.used)
}

// At the input's end: the answer to a last line that no line feed ends; 15 if there is no room for it.
pub fn finish(
    state: State,
    line: &mut [u8],
    letters: &mut [u8],
    protein: &mut [u8],
    out: &mut [u8],
) -> Result<usize, Refusal>
    requires rooms { Rooms line.old letters.old protein.old }
    requires keeps { Keeps state letters.old protein.old }
    ensures value { told result ≡ written_of (last (stage_of state line.old letters.old) (length out.old)) }
    ensures out_after { out.new ≡ over (bytes_of (last (stage_of state line.old letters.old) (length out.old))) out.old }
    ensures fills { Fills (first_end (stage_of state line.old letters.old) (line_feed ∷ [])) letters.old letters.new protein.old protein.new }
{
    if state.held == 0 {
        return Ok(0);
    }
    finish_line(state, line, letters, protein, out)
}
