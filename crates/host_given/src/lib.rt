// The numbers that a host gives: a reference's, an edit's and a form's.
#![tactic(auto)]

ghost use Rattle.std.specs.Prelude.{◌≡◌};
ghost use Rattle.rules.specs.Packed.{form_at};
ghost use Rattle.rules.specs.Views.{cds_of};
ghost use Rattle.host_given.specs.Given.{position_at, edit_at};

use rules::{Cds, Edit, Form, Kind, Position};

// The position of a host's two numbers. What is none is star 0, which is refused with 7 where positions are judged.
pub fn position_at(star: u64, p: i64) -> Position
    ensures { result ≡ position_at star p }
{
    let n = p.unsigned_abs() as usize;
    match star {
        0 if p < 0 => Position::Minus(n),
        0 => Position::Plus(n),
        1 if 0 <= p => Position::Star(n),
        _ => Position::Star(0),
    }
}

pub fn edit_at(kind: u64, start_star: u64, start: i64, end_star: u64, end: i64) -> Edit
    ensures { result ≡ edit_at kind start_star start end_star end }
{
    Edit {
        kind: Kind::from(kind),
        start: position_at(start_star, start),
        end: position_at(end_star, end),
    }
}

pub fn cds_at(cs: u64, ce: u64, table: u64, end: u64) -> Cds
    ensures { result ≡ cds_of cs ce table end }
{
    Cds {
        cs: cs as usize,
        ce: ce as usize,
        table: table as usize,
        end: end as usize,
    }
}

// The form of a host's two numbers. What is none is packed with no letters, which is refused with 1 where letters are judged.
pub fn form_at(form: u64, size: u64) -> Form
    ensures { result ≡ form_at form size }
{
    match form {
        0 => Form::Bytes,
        1 => Form::Packed(size as usize),
        _ => Form::Packed(0),
    }
}
