// "Positions and edits": what the positions of an edit come to, the bases start..end and the number of a silent record.
#![tactic(auto)]

ghost use Rattle.std.specs.Prelude.{◌+◌, min, ◌≡◌, false};
ghost use Rattle.rules.specs.Position.{is_outside, index};
ghost use Rattle.rules.specs.Record.{within, silent_within};
ghost use Rattle.reference.specs.Bounds.{Bounded};

use indexes::{counted_of, index_of};
use numbers::thirds;
use positions::refusals::is_duplication;
use rules::{Cds, Edit};

// The bases start..end of the letters.
#[derive(Clone, Copy)]
pub struct Range {
    pub start: usize,
    pub end: usize,
}

// Brought into 1..n.
#[tactic(auto, unfolding(rules::specs::Record::within))]
fn within(n: usize, k: usize) -> usize
    ensures { result ≡ within n k }
{
    k.min(n).max(1)
}

// The number of a silent record where R has `len` residues.
#[tactic(auto, unfolding(rules::specs::Record::silent_within))]
pub fn silent_number(len: usize, edit: Edit) -> usize
    ensures { result ≡ silent_within len edit }
{
    if is_duplication(edit.kind) {
        return within(len, counted_of(edit.end) / 3 + 1);
    }
    within(len, thirds(counted_of(edit.start)))
}

// The start index, and the end index plus one, at most L.
#[tactic(auto, using(indexes::proofs::Inside::index_near))]
pub fn setup_incorporate(len: usize, c: Cds, edit: Edit) -> Range
    requires bounded { Bounded c }
    requires start_value { is_outside c.cs c.ce edit.start ≡ false }
    requires end_value { is_outside c.cs c.ce edit.end ≡ false }
    ensures start_index { result.start ≡ index c.cs c.ce len edit.start }
    ensures end_index { result.end ≡ min (index c.cs c.ce len edit.end + 1) len }
{
    Range {
        start: index_of(edit.start, c, len),
        end: (index_of(edit.end, c, len) + 1).min(len),
    }
}
