// Where the content of a tag stands.
ghost use Rattle.std.specs.Prelude.{◌≡◌};
ghost use Rattle.fields.specs.Places.{content_at};

use crate::reader::{Field, next_field};
use rules::Part;

// That of the first field with the tag, among the whole fields that the bytes begin with; none where there is no such field.
pub fn content_of(s: &[u8], tag: u8) -> Option<Part>
    ensures { result ≡ content_at tag s.now }
{
    let mut at = 0;
    while let Field::Whole { tag: met, content } = next_field(s, at) {
        if met == tag {
            return Some(content);
        }
        at = content.at + content.len;
    }
    None
}
