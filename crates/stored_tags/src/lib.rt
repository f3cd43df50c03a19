// The form of a stored reference: its tags, what content fits each, and what a field is refused with, 20, 21 or 23.
#![tactic(auto)]

ghost use Rattle.std.specs.Prelude.{◌≡◌};
ghost use Rattle.rules.specs.Refusals.{refusal_of};
ghost use Rattle.rules.specs.Stored.{is_wrong_tag, is_wrong_content, reference_form};
ghost use Rattle.fields.specs.Places.{Within};
ghost use Rattle.fields.specs.Refusals.{field_refusal};

use fields::{Field, bytes_at};
use reference::is_short_end;
use rules::Refusal;

pub const LETTERS: u8 = 1;
// cs and ce, two bytes each.
pub const BOUNDS: u8 = 2;
// One byte.
pub const TABLE: u8 = 3;
// Three bytes each; may be absent.
pub const EXCEPTIONS: u8 = 4;
// Letters beyond those that fill tag 1, and then beyond those that fill tag 5.
pub const SECOND: u8 = 5;

pub const THIRD: u8 = 6;
// cs and ce, four bytes each.
pub const WIDE: u8 = 7;
// How the CDS ends, one byte; absent for a stop.
pub const END: u8 = 8;

#[tactic(auto, unfolding(rules::specs::Stored::reference_form))]
fn is_tag(tag: u8) -> bool
    ensures { result ≡ reference_form.knows tag }
{
    (LETTERS <= tag) & (tag <= END)
}

// Unknown, repeated or not rising; `last` is the tag before it.
#[tactic(auto, unfolding(rules::specs::Stored::is_wrong_tag))]
fn is_wrong_tag(last: u8, tag: u8) -> bool
    ensures { result ≡ is_wrong_tag reference_form last tag }
{
    !is_tag(tag) | (tag <= last)
}

// One byte that tells an end, not at a stop.
#[tactic(auto, unfolding(rules::specs::Stored::reference_form))]
fn is_end(content: &[u8]) -> bool
    ensures { result ≡ reference_form.fits 8 content.now }
{
    content.len() == 1 && is_short_end(usize::from(content[0]))
}

#[tactic(auto, unfolding(rules::specs::Stored::is_wrong_content, rules::specs::Stored::reference_form))]
fn is_wrong_content(tag: u8, content: &[u8]) -> bool
    ensures { result ≡ is_wrong_content reference_form tag content.now }
{
    let len = content.len();
    match tag {
        BOUNDS => len != 4,
        TABLE => len != 1,
        EXCEPTIONS => len % 3 != 0,
        SECOND => len < 1,
        THIRD => len < 1,
        WIDE => len != 8,
        END => !is_end(content),
        _ => false,
    }
}

// 21 before 20 before 23, in a field behind one with the tag `last`.
#[tactic(auto, unfolding(fields::specs::Refusals::field_refusal))]
pub fn field_refusal(s: &[u8], last: u8, f: Field) -> Result<(), Refusal>
    requires { Within s.now f }
    ensures { refusal_of result ≡ field_refusal reference_form last s.now f }
{
    match f {
        Field::End => Ok(()),
        Field::Cut { tag } if is_wrong_tag(last, tag) => Err(Refusal::Tag),
        Field::Cut { tag: _ } => Err(Refusal::Cut),
        Field::Whole { tag, content: _ } if is_wrong_tag(last, tag) => Err(Refusal::Tag),
        Field::Whole { tag, content } if is_wrong_content(tag, bytes_at(s, content)) => {
            Err(Refusal::Field)
        }
        Field::Whole { tag: _, content: _ } => Ok(()),
    }
}
