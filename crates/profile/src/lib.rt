// Refusals 40 to 43, of an edit that 1 to 10 leave. Of the transcript one letter is looked at; that each is one base was seen when the
// reference was checked.
#![tactic(auto)]

ghost use Rattle.std.specs.Prelude.{◌≡◌, List, ℕ};
ghost use Rattle.rules.specs.Bytes.{first_number};
ghost use Rattle.rules.specs.Edit.{is};
ghost use Rattle.rules.specs.declared.Kind.TheVariants.{Substitution};
ghost use Rattle.rules.specs.Packed.{letters_by};
ghost use Rattle.rules.specs.Refusals.{refusal_of};
ghost use Rattle.rules.specs.Views.{bare, asked};
ghost use Rattle.rules.specs.Panel.{is_panel_kind, is_inside, is_of_panel, profile_tests};
ghost use Rattle.profile.specs.Numbers.{uneven_by, tests_by, Editable};

use indexes::index_of;
use packed::{letter_at, size_of};
use reference::Known;
use rules::{Edit, Kind, Position, Refusal};
use translation::all_bases;

// Substitutions, deletions, duplications and insertions.
fn is_panel_kind(kind: Kind) -> bool
    ensures { result ≡ is_panel_kind kind }
{
    matches!(
        kind,
        Kind::Substitution | Kind::Deletion | Kind::Duplication | Kind::Insertion
    )
}

// In the CDS: no negative and no star position.
fn is_inside(p: Position) -> bool
    ensures { result ≡ is_inside p }
{
    matches!(p, Position::Plus(_))
}

// 41: whether the kind and both positions are of the profile.
fn is_of_panel(edit: Edit) -> bool
    ensures { (new : List ℕ) → result ≡ is_of_panel (asked edit new) }
{
    is_panel_kind(edit.kind) & is_inside(edit.start) & is_inside(edit.end)
}

// 42: whether the net change, before the cut, isn't divisible by three, where `span` bases are named and `len` are new.
fn is_uneven(kind: Kind, span: usize, len: usize) -> bool
    ensures { result ≡ uneven_by kind span len }
{
    match kind {
        Kind::Deletion | Kind::Duplication => span % 3 != 0,
        Kind::Insertion => len % 3 != 0,
        _ => false,
    }
}

// Whether a kind names a base: only a substitution does.
fn is_naming(kind: Kind) -> bool
    ensures { result ≡ is Substitution kind }
{
    matches!(kind, Kind::Substitution)
}

// The lowest of 40 to 43, by what the four tests say.
fn first_refusal(bases: bool, of_panel: bool, uneven: bool, names: bool) -> Result<(), Refusal>
    ensures { refusal_of result ≡ first_number (tests_by bases of_panel uneven names) }
{
    if !bases {
        return Err(Refusal::ProfileLetter);
    }
    if !of_panel {
        return Err(Refusal::ProfileEdit);
    }
    if uneven {
        return Err(Refusal::ProfileFrame);
    }
    if !names {
        return Err(Refusal::NamedBase);
    }
    Ok(())
}

// The lowest of 40 to 43 that applies.
pub fn profile_refusal(
    letters: &[u8],
    known: Known,
    edit: Edit,
    new: &[u8],
    named: usize,
) -> Result<(), Refusal>
    requires { Editable (letters_by known.form letters.now) known (asked edit new.now) }
    ensures { refusal_of result ≡ first_number (profile_tests (bare (letters_by known.form letters.now) known.cds) (asked edit new.now) named) }
{
    let form = known.form;
    let c = known.cds;
    let kind = edit.kind;
    let bases = known.plain & all_bases(new);
    let size = size_of(letters, form);
    let first = index_of(edit.start, c, size);
    let last = index_of(edit.end, c, size);
    let uneven = is_uneven(kind, last + 1 - first, new.len());
    let names = !is_naming(kind) | (named == usize::from(letter_at(letters, form, first)));
    first_refusal(bases, is_of_panel(edit), uneven, names)
}
