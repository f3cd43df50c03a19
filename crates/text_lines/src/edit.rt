// The edit lines of a reference.
ghost use Rattle.std.specs.Prelude.{ℕ, ◌≡◌, ◌≤◌, ◌<◌, length, take, Some, None, unwrap_or};
ghost use Rattle.rules.specs.Bytes.{over};
ghost use Rattle.rules.specs.Refusals.{told};
ghost use Rattle.rules.specs.Answer.{written_of, bytes_of};
ghost use Rattle.rules.specs.Views.{bare};
ghost use Rattle.text_answers.specs.Rooms.{line_room, Ample};
ghost use Rattle.text_answers.specs.Stage.{editing, answered};
ghost use Rattle.text_answers.specs.Lines.{KnowsText, KnownIn};
ghost use Rattle.text_gather.specs.Steps.{within, Full, Moves, Steps};

use reference::Known;
use rules::Refusal;
use text_answers::{ALTERED, Phase, TRANSCRIPT, answer_edit};
use text_gather::{Gathered, gather, put};

// What is known of the reference, and how many bytes of the line so far are held.
#[derive(Clone, Copy)]
struct Kept {
    known: Known,
    held: usize,
}

// The bytes of the line so far, and those that were taken. `answer` is how many bytes the line's answer put out, where it ended and was answered.
#[derive(Clone, Copy)]
struct Turn {
    held: usize,
    taken: usize,
    answer: Option<usize>,
}

#[derive(Clone, Copy)]
pub(crate) struct Moved {
    pub held: usize,
    pub taken: usize,
    pub used: usize,
}

// The answer to an edit line, put out, or 15.
fn answer_line(
    line: &[u8],
    letters: &[u8],
    known: Known,
    protein: &[u8],
    transcript: &mut [u8],
    altered: &mut [u8],
    out: &mut [u8],
) -> Result<usize, Refusal>
    requires knows_text { KnowsText letters.now known protein.now }
    requires ample { Ample transcript.old altered.old }
    ensures value { told result ≡ written_of (within (answered (editing (bare letters.now known.cds) line.now)) (length out.old)) }
    ensures out_after { out.new ≡ over (bytes_of (within (answered (editing (bare letters.now known.cds) line.now)) (length out.old))) out.old }
{
    let size = answer_edit(line, letters, known, protein, transcript, altered);
    put(&transcript[..size], out)
}

// Takes the bytes of one line, and its end too if there is room for its answer.
fn edit_line(
    begun: Kept,
    line: &mut [u8],
    letters: &[u8],
    protein: &[u8],
    transcript: &mut [u8],
    altered: &mut [u8],
    input: &[u8],
    out: &mut [u8],
) -> Turn
    requires line_len { (length line.old ≡ line_room) × (begun.held ≤ line_room) }
    requires knows_text { KnowsText letters.now begun.known protein.now }
    requires ample { Ample transcript.old altered.old }
    ensures held_le_line_room { result.held ≤ line_room }
    ensures moves { Moves (editing (bare letters.now begun.known.cds) (take begun.held line.old))
        (editing (bare letters.now begun.known.cds) (take result.held line.new))
        input.now result.taken (unwrap_or result.answer 0) out.old out.new }
    ensures taken_nonzero { (size : ℕ) → result.answer ≡ Some size → 0 < result.taken }
    ensures full { result.answer ≡ None → Full (editing (bare letters.now begun.known.cds) (take begun.held line.old))
        input.now result.taken out.old }
{
    let Gathered { held, taken } = gather(line, begun.held, input);
    let still = Turn {
        held,
        taken,
        answer: None,
    };
    if taken == input.len() {
        return still;
    }
    match answer_line(
        &line[..held],
        letters,
        begun.known,
        protein,
        transcript,
        altered,
        out,
    ) {
        Err(_) => still,
        Ok(size) => Turn {
            held: 0,
            taken: taken + 1,
            answer: Some(size),
        },
    }
}

// Takes line by line, as far as there is room for the answers.
fn edit_lines(
    begun: Kept,
    line: &mut [u8],
    letters: &[u8],
    protein: &[u8],
    transcript: &mut [u8],
    altered: &mut [u8],
    input: &[u8],
    out: &mut [u8],
) -> Moved
    requires line_len { (length line.old ≡ line_room) × (begun.held ≤ line_room) }
    requires knows_text { KnowsText letters.now begun.known protein.now }
    requires ample { Ample transcript.old altered.old }
    ensures held_le_line_room { result.held ≤ line_room }
    ensures steps { Steps (editing (bare letters.now begun.known.cds) (take begun.held line.old))
        (editing (bare letters.now begun.known.cds) (take result.held line.new))
        input.now result.taken result.used out.old out.new }
{
    let known = begun.known;
    let mut held = begun.held;
    let mut taken = 0;
    let mut used = 0;
    // Kept: no for, since each turn finds how far it goes.
    while taken < input.len() {
        let turn = edit_line(
            Kept { known, held },
            line,
            letters,
            protein,
            transcript,
            altered,
            &input[taken..],
            &mut out[used..],
        );
        held = turn.held;
        taken += turn.taken;
        let Some(size) = turn.answer else {
            return Moved { held, taken, used };
        };
        used += size;
    }
    Moved { held, taken, used }
}

// The edit lines of a piece, with working room for their answers.
pub(crate) fn edit_some(
    known: Known,
    size: usize,
    held: usize,
    line: &mut [u8],
    letters: &[u8],
    protein: &[u8],
    input: &[u8],
    out: &mut [u8],
) -> Moved
    requires line_len { (length line.old ≡ line_room) × (held ≤ line_room) }
    requires known_in { KnownIn (Phase.Editing known size) letters.now protein.now }
    ensures held_le_line_room { result.held ≤ line_room }
    ensures steps { Steps (editing (bare (take size letters.now) known.cds) (take held line.old))
        (editing (bare (take size letters.now) known.cds) (take result.held line.new))
        input.now result.taken result.used out.old out.new }
{
    let mut transcript = [0u8; TRANSCRIPT];
    let mut altered = [0u8; ALTERED];
    edit_lines(
        Kept { known, held },
        line,
        &letters[..size],
        &protein[..known.residues],
        &mut transcript,
        &mut altered,
        input,
        out,
    )
}
