// What an edit leaves of R, by the numbers of its plan.
ghost use Rattle.std.specs.Prelude.{◌≡◌};
ghost use Rattle.reference.specs.Bounds.{Bounded};
ghost use Rattle.reuse.specs.Reusing.{Placed, is_identity, keeps_all_by, pieces_by};

use edits::plans::{Plan, Source};
use rules::Cds;

// The first `head` residues of R stay, the letters start..end of the altered transcript are read, and behind them R goes on from residue `back`.
#[derive(Clone, Copy)]
pub struct Pieces {
    pub head: usize,
    pub start: usize,
    pub end: usize,
    pub back: usize,
}

// Whether a plan puts back the bases of its range.
#[tactic(auto, unfolding(crate::specs::Reusing::is_identity_by))]
fn is_identity(plan: Plan) -> bool
    ensures { result ≡ is_identity plan }
{
    matches!(plan.source, Source::Copy) & (plan.from < plan.to)
}

// Whether no codon is read: an identity, or an edit behind the stop.
#[tactic(auto, unfolding(crate::specs::Reusing::keeps_all_by))]
fn keeps_all(c: Cds, plan: Plan) -> bool
    ensures { result ≡ keeps_all_by c plan }
{
    is_identity(plan) | ((c.end == 0) & (c.ce <= plan.from))
}

// The pieces of a plan, where R has so many residues. Behind a frameshift, or where no CDS codon follows, all is read.
#[tactic(auto, unfolding(crate::specs::Reusing::pieces_by, crate::specs::Reusing::is_level_by))]
pub fn pieces_of(c: Cds, plan: Plan, residues: usize) -> Pieces
    requires bounded { Bounded c }
    requires placed { Placed c plan }
    ensures { result ≡ pieces_by c plan residues }
{
    let first = c.cs - 1;
    let codons = (c.ce - first) / 3;
    if keeps_all(c, plan) {
        let behind = first + codons * 3;
        return Pieces {
            head: codons,
            start: behind,
            end: behind,
            back: codons,
        };
    }
    let put = plan.from + plan.kept;
    let head = (plan.from - first) / 3;
    let tail = (put - first + 2) / 3;
    let back = (tail * 3 + plan.to - put) / 3;
    let start = first + head * 3;
    if (put % 3 == plan.to % 3) & (back < codons) {
        return Pieces {
            head,
            start,
            end: first + tail * 3,
            back,
        };
    }
    Pieces {
        head,
        start,
        end: plan.length,
        back: residues,
    }
}
