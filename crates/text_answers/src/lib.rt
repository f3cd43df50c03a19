// "Text program": what one line is answered, printed to the start of a buffer. And the sizes of the program's buffers: they are its own, whatever
// the library's limits are.
#![tactic(auto)]

mod edit;
mod first;

ghost use Rattle.std.specs.Prelude.{◌≡◌};
ghost use Rattle.rules.specs.Line.{fits_line};

pub use edit::answer_edit;
pub use first::{Opened, answer_first};
use reference::Known;

// The longest line; and one byte more, which tells that a line is longer.
const LONGEST_LINE: usize = 20480;

pub const LINE: usize = LONGEST_LINE + 1;

// The letters of the longest reference, and its R.
pub const LETTERS: usize = 16384;

pub const PROTEIN: usize = 5462;

// The longest altered transcript, which duplicates all letters, and its protein.
pub const TRANSCRIPT: usize = 32768;

pub const ALTERED: usize = 10923;

// The longest answer to a first line, and the longest of all, each with its line feed.
pub const FIRST: usize = 5473;

pub const ANSWER: usize = 16415;

// Where a run stands: in its first line; in the edit lines of a reference, of which `size` letters are kept; or behind a refused first line, where
// nothing more is answered.
#[derive(Clone, Copy)]
pub enum Phase {
    Opening,
    Editing { known: Known, size: usize },
    Ended,
}

// Lines above 20,480 bytes are 30.
fn fits_line(line: &[u8]) -> bool
    ensures { result ≡ fits_line line.now }
{
    line.len() <= LONGEST_LINE
}
