// Whether two edits of one reference lie apart.
#![tactic(auto)]

ghost use Rattle.std.specs.Prelude.{ℕ, ◌≡◌, List, length};
ghost use Rattle.rules.specs.Pair.{touched_from, touched_to, are_apart};
ghost use Rattle.rules.specs.Views.{bare, asked};
ghost use Rattle.apart.specs.Apart.{Touching};

use positions::refusals::is_insertion;
use rules::{Cds, Edit};
use spans::{Range, setup_incorporate};

// The bases that an edit touches: start to end, copied bases included; an insertion is its gap.
fn touched(len: usize, c: Cds, edit: Edit) -> Range
    requires { Touching c len edit }
    ensures start_by_index { (s new : List ℕ) → length s ≡ len → result.start ≡ touched_from (bare s c) (asked edit new) }
    ensures end_by_index { (s new : List ℕ) → length s ≡ len → result.end ≡ touched_to (bare s c) (asked edit new) }
{
    let range = setup_incorporate(len, c, edit);
    let kind = edit.kind;
    if is_insertion(kind) {
        let gap = range.start + 1;
        return Range {
            start: gap,
            end: gap,
        };
    }
    range
}

// Whether at least one untouched base lies between two edits.
pub fn are_apart(len: usize, c: Cds, edit: Edit, other: Edit) -> bool
    requires touching { Touching c len edit }
    requires other_touching { Touching c len other }
    ensures { (s new bases : List ℕ) → length s ≡ len → result ≡ are_apart (bare s c) (asked edit new) (asked other bases) }
{
    let one = touched(len, c, edit);
    let two = touched(len, c, other);
    (one.end < two.start) | (two.end < one.start)
}
