// "Positions and edits": a position's place, and its index in editing.
#![tactic(auto)]

ghost use Rattle.std.specs.Prelude.{◌≡◌, false, ◌+◌, ◌<◌};
ghost use Rattle.rules.specs.Position.{place, is_outside, index, is_before, is_behind, counted};
ghost use Rattle.reference.specs.Bounds.{Bounded};

use rules::{Cds, Position};

// 0; past the CDS; before base 1 of the transcript; star 0 or above 65,535.
#[tactic(auto, unfolding(rules::specs::Position::is_outside))]
pub fn is_outside(p: Position, c: Cds) -> bool
    requires { Bounded c }
    ensures { result ≡ is_outside c.cs c.ce p }
{
    match p {
        Position::Plus(n) => (n == 0) | (c.ce + 1 - c.cs < n),
        Position::Minus(n) => (n == 0) | (c.cs - 1 < n),
        Position::Star(q) => (q == 0) | (65535 < q),
    }
}

// The place, counted from 0.
#[tactic(auto, unfolding(rules::specs::Position::place, rules::specs::Position::is_outside))]
pub fn place_of(p: Position, c: Cds) -> usize
    requires bounded { Bounded c }
    requires p_value { is_outside c.cs c.ce p ≡ false }
    ensures value { result ≡ place c.cs c.ce p }
    ensures near { result < c.ce + 65535 }
{
    match p {
        Position::Plus(n) => c.cs + n - 2,
        Position::Minus(n) => c.cs - 1 - n,
        Position::Star(q) => c.ce + q - 1,
    }
}

// The index used in editing.
#[tactic(auto, unfolding(rules::specs::Position::index, rules::specs::Position::is_outside))]
pub fn index_of(p: Position, c: Cds, len: usize) -> usize
    requires bounded { Bounded c }
    requires p_value { is_outside c.cs c.ce p ≡ false }
    ensures { result ≡ index c.cs c.ce len p }
{
    match p {
        Position::Plus(n) => c.cs + n - 2,
        Position::Minus(_) => c.cs - 1,
        Position::Star(q) => (c.ce + q - 1).min(len),
    }
}

#[tactic(auto, unfolding(rules::specs::Position::is_before))]
pub fn is_before(p: Position) -> bool
    ensures { result ≡ is_before p }
{
    matches!(p, Position::Minus(_))
}

#[tactic(auto, unfolding(rules::specs::Position::is_behind))]
pub fn is_behind(p: Position) -> bool
    ensures { result ≡ is_behind p }
{
    matches!(p, Position::Star(_))
}

// The number that a silent record counts from.
#[tactic(auto, unfolding(rules::specs::Position::counted))]
pub fn counted_of(p: Position) -> usize
    ensures { result ≡ counted p }
{
    match p {
        Position::Plus(n) => n,
        Position::Minus(_) => 1,
        Position::Star(q) => q,
    }
}
