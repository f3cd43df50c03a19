// "Check records from older annotators": a proposed record's form, and its two answers over two proteins, R and A.
#![tactic(auto)]

ghost use Rattle.std.specs.Prelude.{◌≡◌, ◌&&◌, not, List, ℕ, ◌+◌, eqb, ltb, length};
ghost use Rattle.rules.specs.Bytes.{all};
ghost use Rattle.rules.specs.Translation.{is_residue};
ghost use Rattle.rules.specs.Check.{replays, is_shortest, is_proposal};
ghost use Rattle.replays.specs.Proposed.{proposed};

use bytewise::all_bytes;
use letters::is_residue;
use replays::replays_to;
use shortest::parts_there;

// Whether each byte is a residue.
fn are_residues(s: &[u8]) -> bool
    ensures { result ≡ all is_residue s.now }
{
    all_bytes(s, is_residue)
}

// Whether a number is from 1 to one more than a protein's residues.
fn is_number(residues: usize, number: usize) -> bool
    ensures { result ≡ (not (eqb number 0) && not (ltb (residues + 1) number)) }
{
    if number <= residues {
        return number != 0;
    }
    number - residues <= 1
}

// Whether a proposal has such a number, and residues alone. Of R only its length plays a part.
pub fn is_proposal(residues: usize, number: usize, deleted: &[u8], inserted: &[u8]) -> bool
    ensures { (R : List ℕ) → length R ≡ residues → result ≡ is_proposal (proposed number deleted.now inserted.now) R }
{
    is_number(residues, number) & are_residues(deleted) & are_residues(inserted)
}

// The two answers: whether a proposal replays, and whether it is also the shortest that begins where the proteins part.
#[derive(Clone, Copy)]
pub struct Judgement {
    pub replays: bool,
    pub shortest: bool,
}

// The answers of any proposal, over any two proteins.
pub fn judge(
    reference: &[u8],
    altered: &[u8],
    number: usize,
    deleted: &[u8],
    inserted: &[u8],
) -> Judgement
    ensures replays_value { result.replays ≡ replays (proposed number deleted.now inserted.now) reference.now altered.now }
    ensures shortest_value { result.shortest ≡ is_shortest (proposed number deleted.now inserted.now) reference.now altered.now }
{
    if !replays_to(reference, altered, number, deleted, inserted) {
        return Judgement {
            replays: false,
            shortest: false,
        };
    }
    Judgement {
        replays: true,
        shortest: parts_there(reference, altered, number, deleted),
    }
}
