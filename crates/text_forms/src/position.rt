// Positions `7`, `-2`, `*3`, and one or two of them joined by `_`.
ghost use Rattle.std.specs.Prelude.{◌≡◌, ◌+◌, ◌≤◌, length, drop};
ghost use Rattle.rules.specs.Line.{position, range};
ghost use Rattle.text_forms.specs.Views.{signs, signed, placed_in, placed_next, range_in, range_next};

use rules::Position;
use text_numbers::parse_number;

#[derive(Clone, Copy)]
pub struct PositionAt {
    pub position: Position,
    pub next: usize,
}

// One position stands for both ends.
#[derive(Clone, Copy)]
pub struct RangeAt {
    pub start: Position,
    pub end: Position,
    pub next: usize,
}

// The number of sign bytes, by the first byte of a position.
pub fn signs_of(b: u8) -> usize
    ensures { result ≡ signs b }
{
    usize::from(matches!(b, b'-' | b'*'))
}

// The position of a number, by the first byte of the position.
pub fn signed_by(b: u8, n: usize) -> Position
    ensures { result ≡ signed b n }
{
    match b {
        b'-' => Position::Minus(n),
        b'*' => Position::Star(n),
        _ => Position::Plus(n),
    }
}

// The position that stands at a place of a line.
fn parse_position(line: &[u8], at: usize) -> Option<PositionAt>
    ensures result_value { placed_in line.now result ≡ position (drop at line.now) }
    ensures within { placed_next result ≤ length line.now }
{
    if line.len() <= at {
        return None;
    }
    let b = line[at];
    let number = parse_number(line, at + signs_of(b))?;
    Some(PositionAt {
        position: signed_by(b, number.value),
        next: number.next,
    })
}

// The positions that a line begins with.
pub(crate) fn parse_range(line: &[u8]) -> Option<RangeAt>
    ensures result_value { range_in line.now result ≡ range line.now }
    ensures within { range_next result ≤ length line.now }
{
    let PositionAt {
        position: start,
        next,
    } = parse_position(line, 0)?;
    if line.len() <= next || line[next] != b'_' {
        return Some(RangeAt {
            start,
            end: start,
            next,
        });
    }
    let PositionAt {
        position: end,
        next: behind,
    } = parse_position(line, next + 1)?;
    Some(RangeAt {
        start,
        end,
        next: behind,
    })
}
