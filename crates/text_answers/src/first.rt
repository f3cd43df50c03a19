// A first line.
ghost use Rattle.std.specs.Prelude.{◌≡◌, [], ◌∷◌, ◌++◌, length};
ghost use Rattle.std.proofs.Math.Option.{some};
ghost use Rattle.rules.specs.Bytes.{over};
ghost use Rattle.rules.specs.Refusals.{refusal_number};
ghost use Rattle.rules.specs.Run.{refused_line, answers_of, line_feed, unlines};
ghost use Rattle.rules.specs.Views.{bare};
ghost use Rattle.text_answers.specs.Rooms.{letters_room, protein_room, first_room};
ghost use Rattle.text_answers.specs.Stage.{opening, accepted, behind_first, next_line, answered};
ghost use Rattle.text_answers.specs.Lines.{Opens};

use crate::{LETTERS, Phase, fits_line};
use reference::check_reference;
use rules::{Cds, Exceptions, Form, Refusal};
use text_forms::parse_reference;
use text_prints::{print_reference, print_refusal};

// What a first line is answered, `size` bytes, and where the run stands behind it.
#[derive(Clone, Copy)]
pub struct Opened {
    pub phase: Phase,
    pub size: usize,
}

// A refused first line ends the run.
fn refuse(refusal: Refusal, text: &mut [u8]) -> Opened
    requires { length text.old ≡ first_room }
    ensures phase_value { result.phase ≡ Phase.Ended }
    ensures size_value { result.size ≡ length (refused_line (refusal_number refusal) ++ (line_feed ∷ [])) }
    ensures text_after { text.new ≡ over (refused_line (refusal_number refusal) ++ (line_feed ∷ [])) text.old }
{
    Opened {
        phase: Phase::Ended,
        size: print_refusal(refusal, text),
    }
}

// A reference. Its letters and R are kept where it isn't refused.
fn answer_given(
    given: &[u8],
    cds: Cds,
    letters: &mut [u8],
    protein: &mut [u8],
    text: &mut [u8],
) -> Opened
    requires { (length letters.old ≡ letters_room) × (length protein.old ≡ protein_room) × (length text.old ≡ first_room) }
    ensures { Opens (unlines (answers_of (some (bare given.now cds)) [])) (behind_first (accepted (some (bare given.now cds)))) result.phase result.size
        letters.old letters.new protein.old protein.new text.old text.new }
{
    match check_reference(
        given,
        Form::Bytes,
        cds,
        Exceptions::none(),
        LETTERS,
        protein,
    ) {
        Err(refusal) => refuse(refusal, text),
        Ok(known) => {
            let size = bytewise::copy(given, letters);
            Opened {
                phase: Phase::Editing { known, size },
                size: print_reference(&protein[..known.residues], text),
            }
        }
    }
}

// A first line.
pub fn answer_first(line: &[u8], letters: &mut [u8], protein: &mut [u8], text: &mut [u8]) -> Opened
    requires { (length letters.old ≡ letters_room) × (length protein.old ≡ protein_room) × (length text.old ≡ first_room) }
    ensures { Opens (answered (opening line.now)) (next_line (opening line.now)) result.phase result.size
        letters.old letters.new protein.old protein.new text.old text.new }
{
    if !fits_line(line) {
        return refuse(Refusal::Line, text);
    }
    let Some(given) = parse_reference(line) else {
        return refuse(Refusal::Line, text);
    };
    answer_given(&line[given.at..], given.cds, letters, protein, text)
}
