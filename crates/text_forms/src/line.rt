// The two lines: an edit, and `ref CS CE TABLE LETTERS`.
ghost use Rattle.std.specs.Prelude.{◌≡◌, ◌≤◌, length, drop};
ghost use Rattle.rules.specs.Line.{edit_line, spaced, reference_line};
ghost use Rattle.text_numbers.specs.Views.{number_in, number_next};
ghost use Rattle.text_forms.specs.Views.{edit_line_in, bases_at, reference_line_in, letters_at};

use crate::position::parse_range;
use rules::{Cds, Edit};
use text_numbers::{NumberAt, parse_number};
use text_verbs::{are_capitals, parse_verb, starts_with};

// The new bases are the line from `at` on; `at` is the line's length where there are none.
#[derive(Clone, Copy)]
pub struct EditLine {
    pub edit: Edit,
    pub at: usize,
}

// The letters are the line from `at` on.
#[derive(Clone, Copy)]
pub struct ReferenceLine {
    pub cds: Cds,
    pub at: usize,
}

// An edit line: its positions, its kind, and where its new bases begin.
pub fn parse_edit(line: &[u8]) -> Option<EditLine>
    ensures result_value { edit_line_in line.now result ≡ edit_line line.now }
    ensures within { bases_at result ≤ length line.now }
{
    let range = parse_range(line)?;
    let verb = parse_verb(line, range.next)?;
    Some(EditLine {
        edit: Edit {
            kind: verb.kind,
            start: range.start,
            end: range.end,
        },
        at: verb.at,
    })
}

// The number at a place of a line, with one space behind it.
fn parse_spaced(line: &[u8], at: usize) -> Option<NumberAt>
    requires { at ≤ length line.now }
    ensures result_value { number_in line.now result ≡ spaced (drop at line.now) }
    ensures within { number_next result ≤ length line.now }
{
    let NumberAt { value, next } = parse_number(line, at)?;
    if line.len() <= next || line[next] != b' ' {
        return None;
    }
    Some(NumberAt {
        value,
        next: next + 1,
    })
}

// `ref CS CE TABLE LETTERS`: the numbers, and where the letters begin.
pub fn parse_reference(line: &[u8]) -> Option<ReferenceLine>
    ensures result_value { reference_line_in line.now result ≡ reference_line line.now }
    ensures within { letters_at result ≤ length line.now }
{
    if !starts_with(b"ref ", line) {
        return None;
    }
    let cs = parse_spaced(line, 4)?;
    let ce = parse_spaced(line, cs.next)?;
    let table = parse_spaced(line, ce.next)?;
    if !are_capitals(&line[table.next..]) {
        return None;
    }
    Some(ReferenceLine {
        cds: Cds {
            cs: cs.value,
            ce: ce.value,
            table: table.value,
            end: 0,
        },
        at: table.next,
    })
}
