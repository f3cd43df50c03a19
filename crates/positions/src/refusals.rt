// "Refusal numbers": 7 to 10, over both positions. Of the transcript only its length plays a part.
ghost use Rattle.std.specs.Prelude.{ℕ, ◌≡◌, false, List, length};
ghost use Rattle.rules.specs.Bytes.{first_number};
ghost use Rattle.rules.specs.Position.{is_outside};
ghost use Rattle.rules.specs.Edit.{is, ends_past, is_misplaced, is_disordered, is_out_of_cds, are_new_bases, fit_bases, edit_tests};
ghost use Rattle.rules.specs.declared.Kind.TheVariants.{Substitution, Insertion, Duplication};
ghost use Rattle.rules.specs.Refusals.{refusal_of};
ghost use Rattle.rules.specs.Views.{bare, asked};
ghost use Rattle.reference.specs.Bounds.{Bounded};

use indexes::{is_before, is_behind, is_outside, place_of};
use rules::{Cds, Edit, Kind, Refusal};
use sequences::all_letters;

fn is_substitution(kind: Kind) -> bool
    ensures { result ≡ is Substitution kind }
{
    matches!(kind, Kind::Substitution)
}

pub fn is_insertion(kind: Kind) -> bool
    ensures { result ≡ is Insertion kind }
{
    matches!(kind, Kind::Insertion)
}

pub fn is_duplication(kind: Kind) -> bool
    ensures { result ≡ is Duplication kind }
{
    matches!(kind, Kind::Duplication)
}

// Whether they are new bases, 1 to `most` of them.
#[tactic(auto, unfolding(rules::specs::Edit::are_new_bases))]
fn are_new_bases(most: usize, s: &[u8]) -> bool
    ensures { result ≡ are_new_bases most s.now }
{
    if (s.len() < 1) | (most < s.len()) {
        return false;
    }
    all_letters(s)
}

// Whether the new bases are those that the kind takes.
#[tactic(auto, unfolding(rules::specs::Edit::fit_bases))]
fn fit_bases(most: usize, kind: Kind, new: &[u8]) -> bool
    ensures { result ≡ fit_bases most kind new.now }
{
    match kind {
        Kind::Substitution => are_new_bases(1, new),
        Kind::Delins | Kind::Insertion => are_new_bases(most, new),
        Kind::Deletion | Kind::Duplication | Kind::Inversion | Kind::Identity => new.is_empty(),
        Kind::Other => false,
    }
}

// Whether the end's place is L or more.
#[tactic(auto, unfolding(rules::specs::Edit::ends_past, rules::specs::Edit::end_place, rules::specs::Reference::size))]
pub fn ends_after_transcript(size: usize, c: Cds, edit: Edit) -> bool
    requires bounded { Bounded c }
    requires end_value { is_outside c.cs c.ce edit.end ≡ false }
    ensures { (s new : List ℕ) → length s ≡ size → result ≡ ends_past (bare s c) (asked edit new) }
{
    size <= place_of(edit.end, c)
}

// 7: a position outside, or a duplication's end at L or behind.
#[tactic(auto, unfolding(rules::specs::Edit::is_misplaced))]
fn is_misplaced(size: usize, c: Cds, edit: Edit) -> bool
    requires { Bounded c }
    ensures { (s new : List ℕ) → length s ≡ size → result ≡ is_misplaced (bare s c) (asked edit new) }
{
    if is_outside(edit.start, c) | is_outside(edit.end, c) {
        return true;
    }
    is_duplication(edit.kind) & ends_after_transcript(size, c, edit)
}

// 8: places out of order, an insertion's not neighbours, or a substitution's not the same.
#[tactic(auto, unfolding(rules::specs::Edit::is_disordered, rules::specs::Edit::start_place, rules::specs::Edit::end_place))]
fn is_disordered(c: Cds, edit: Edit) -> bool
    requires bounded { Bounded c }
    requires start_value { is_outside c.cs c.ce edit.start ≡ false }
    requires end_value { is_outside c.cs c.ce edit.end ≡ false }
    ensures { (s new : List ℕ) → result ≡ is_disordered (bare s c) (asked edit new) }
{
    let first = place_of(edit.start, c);
    let last = place_of(edit.end, c);
    let apart = is_insertion(edit.kind) & (last != first + 1);
    let two = is_substitution(edit.kind) & (last != first);
    (last < first) | apart | two
}

// 9: both ends before the CDS, both behind it, or an insertion's left anchor before it.
#[tactic(auto, unfolding(rules::specs::Edit::is_out_of_cds))]
fn is_out_of_cds(edit: Edit) -> bool
    ensures { (new : List ℕ) → result ≡ is_out_of_cds (asked edit new) }
{
    let before = is_before(edit.start) & is_before(edit.end);
    let behind = is_behind(edit.start) & is_behind(edit.end);
    before | behind | (is_insertion(edit.kind) & is_before(edit.start))
}

// The lowest of 7 to 10 that applies.
#[tactic(auto, unfolding(rules::specs::Edit::edit_tests, rules::specs::Bytes::first_number))]
pub fn edit_refusal(size: usize, c: Cds, most: usize, edit: Edit, new: &[u8]) -> Result<(), Refusal>
    requires { Bounded c }
    ensures { (s : List ℕ) → length s ≡ size → refusal_of result ≡ first_number (edit_tests most (bare s c) (asked edit new.now)) }
{
    if is_misplaced(size, c, edit) {
        return Err(Refusal::Position);
    }
    if is_disordered(c, edit) {
        return Err(Refusal::Order);
    }
    if is_out_of_cds(edit) {
        return Err(Refusal::OutOfCds);
    }
    if !fit_bases(most, edit.kind, new) {
        return Err(Refusal::Bases);
    }
    Ok(())
}
