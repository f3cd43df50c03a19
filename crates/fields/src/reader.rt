// The reader of stored fields. The work is in `field_at`, which takes a plain slice and a place.
ghost use Rattle.std.specs.Prelude.{◌≡◌, ◌+◌, ◌≤◌, length};
ghost use Rattle.rules.specs.Record.{part_of};
ghost use Rattle.fields.specs.Places.{field_at};

use byte_numbers::two_bytes;
use rules::Part;

// The bytes at a place.
pub fn bytes_at(s: &[u8], p: Part) -> &[u8]
    requires { p.at + p.len ≤ length s.now }
    ensures { result.now ≡ part_of p s.now }
{
    let at = p.at;
    let end = at + p.len;
    &s[at..end]
}

// What the bytes hold at a place.
#[derive(Clone, Copy)]
pub enum Field {
    Whole { tag: u8, content: Part },
    // The bytes end inside the field.
    Cut { tag: u8 },
    // No byte is left.
    End,
}

// The field at a place of the bytes.
fn field_at(s: &[u8], at: usize) -> Field
    ensures { result ≡ field_at s.now at }
{
    if s.len() <= at {
        return Field::End;
    }
    let tag = s[at];
    if s.len() - at < 3 {
        return Field::Cut { tag };
    }
    let len = two_bytes(s, at + 1);
    if len <= s.len() - (at + 3) {
        Field::Whole {
            tag,
            content: Part { at: at + 3, len },
        }
    } else {
        Field::Cut { tag }
    }
}

// The caller's bytes and a place in them.
#[derive(Clone, Copy)]
pub struct Fields<'a> {
    pub src: &'a [u8],
    pub at: usize,
}

impl<'a> Fields<'a> {
    // At the bytes' start.
    pub fn new(src: &'a [u8]) -> Fields<'a>
        ensures { (result.src ≡ src.entry) × (result.at ≡ 0) }
    {
        Fields { src, at: 0 }
    }

    // At another place.
    pub fn moved(self, at: usize) -> Fields<'a>
        ensures { (result.src ≡ self.entry.src) × (result.at ≡ at) }
    {
        Fields { src: self.src, at }
    }

    // The field there.
    pub fn next(self) -> Field
        ensures { result ≡ field_at self.entry.src.now self.entry.at }
    {
        field_at(self.src, self.at)
    }
}

// The field that a reader of the bytes meets at a place: for every caller that holds no reader.
pub fn next_field(s: &[u8], at: usize) -> Field
    ensures { result ≡ field_at s.now at }
{
    Fields::new(s).moved(at).next()
}
