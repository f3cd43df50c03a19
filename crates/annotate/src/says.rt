// What is said on standard error.
ghost use Rattle.std.specs.Prelude.{◌≡◌, List, ℕ, ◌≤◌, length};
ghost use Rattle.text_lines.specs.Memory.{stage_of};
ghost use Rattle.annotate.specs.Turns.{is_editing, ends_in_return};

use std::io::{Stderr, Write};
use text_answers::Phase;
use text_lines::State;

// What can't be written there is let go: there is nowhere left to say it.
fn say(stderr: &mut Stderr, line: &[u8]) {
    let _ = stderr.write_all(line);
}

pub(crate) fn say_unread(stderr: &mut Stderr) {
    say(stderr, b"error: standard input can't be read\n");
}

pub(crate) fn say_unwritten(stderr: &mut Stderr) {
    say(
        stderr,
        b"error: standard output can't be written: answers are missing\n",
    );
}

// Whether a reference was accepted.
fn is_editing(state: State) -> bool
    ensures { (line letters : List ℕ) → result ≡ is_editing (stage_of state line letters) }
{
    matches!(state.phase, Phase::Editing { .. })
}

fn ends_in_return(line: &[u8]) -> bool
    ensures { result ≡ ends_in_return line.now }
{
    matches!(line.last(), Some(b'\r'))
}

// A first line that ends in a carriage return isn't in the form, and is held where it was refused: the file is likely another system's.
pub(crate) fn hint_return(stderr: &mut Stderr, state: State, line: &[u8])
    requires { state.held ≤ length line.now }
{
    let held = state.held;
    if is_editing(state) {
        return;
    }
    if ends_in_return(&line[..held]) {
        say(
            stderr,
            b"hint: the first line ends in a carriage return: a file with CR LF line ends?\n",
        );
    }
}
