// The fields of a stored reference in their order: 20, 21 and 23.
ghost use Rattle.std.specs.Prelude.{◌≡◌};
ghost use Rattle.rules.specs.Refusals.{refusal_of};
ghost use Rattle.rules.specs.Stored.{reference_form, fields};
ghost use Rattle.fields.specs.Refusals.{refusal_in};

use fields::{Field, next_field};
use rules::Refusal;
use stored_tags::field_refusal;

// The first of 20, 21 and 23 that is met in field order.
pub(crate) fn fields_refusal(s: &[u8]) -> Result<(), Refusal>
    ensures { refusal_of result ≡ refusal_in (fields reference_form s.now) }
{
    let mut at = 0;
    let mut last = 0;
    // Kept: no for, since each turn finds where the next begins.
    loop {
        let f = next_field(s, at);
        field_refusal(s, last, f)?;
        let Field::Whole { tag, content } = f else {
            return Ok(());
        };
        last = tag;
        at = content.at + content.len;
    }
}
