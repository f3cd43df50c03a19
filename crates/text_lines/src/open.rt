// The first line, up to its end.
ghost use Rattle.std.specs.Prelude.{◌≡◌, ◌≤◌, length, take};
ghost use Rattle.text_answers.specs.Rooms.{line_room, letters_room, protein_room};
ghost use Rattle.text_answers.specs.Stage.{opening, next_line};
ghost use Rattle.text_lines.specs.Memory.{held_behind, Rooms, Keeps, first_end, Fills, Put, Begins};

use crate::{State, Stepped};
use text_answers::{FIRST, Opened, Phase, answer_first};
use text_gather::{Gathered, gather, put};

// The answer to a first line, put out; None where there is no room for it.
fn open_line(line: &[u8], letters: &mut [u8], protein: &mut [u8], out: &mut [u8]) -> Option<Opened>
    requires { (length letters.old ≡ letters_room) × (length protein.old ≡ protein_room) }
    ensures put { Put (opening line.now) result letters.new protein.new out.old out.new }
    ensures fills { Fills (next_line (opening line.now)) letters.old letters.new protein.old protein.new }
{
    let mut text = [0u8; FIRST];
    let opened = answer_first(line, letters, protein, &mut text);
    match put(&text[..opened.size], out) {
        Ok(_) => Some(opened),
        Err(_) => None,
    }
}

// What is held behind the first line: nothing of an edit line; the line itself, where it was refused.
fn held_behind(phase: Phase, held: usize) -> usize
    ensures { result ≡ held_behind phase held }
{
    if matches!(phase, Phase::Ended) {
        held
    } else {
        0
    }
}

// Takes the bytes of the first line, and its end too if there is room for its answer.
pub(crate) fn open_some(
    held: usize,
    line: &mut [u8],
    letters: &mut [u8],
    protein: &mut [u8],
    input: &[u8],
    out: &mut [u8],
) -> Stepped
    requires rooms { Rooms line.old letters.old protein.old }
    requires held_le_line_room { held ≤ line_room }
    ensures keeps { Keeps result.state letters.new protein.new }
    ensures begins { Begins (opening (take held line.old)) result.state line.new letters.new
        input.now result.taken result.used out.old out.new }
    ensures fills { Fills (first_end (opening (take held line.old)) input.now) letters.old letters.new protein.old protein.new }
{
    let Gathered { held: n, taken } = gather(line, held, input);
    let still = Stepped {
        state: State {
            phase: Phase::Opening,
            held: n,
        },
        taken,
        used: 0,
    };
    if taken == input.len() {
        return still;
    }
    let Some(opened) = open_line(&line[..n], letters, protein, out) else {
        return still;
    };
    Stepped {
        state: State {
            phase: opened.phase,
            held: held_behind(opened.phase, n),
        },
        taken: taken + 1,
        used: opened.size,
    }
}
