// The fields of stored settings by their places: whether they are those of a version, and what they hold.
#![tactic(auto)]

ghost use Rattle.std.specs.Prelude.{◌≡◌, true};
ghost use Rattle.rules.specs.Settings.{layout};
ghost use Rattle.settings_fields.specs.Places.{is_at, are_at, version_in, settings_at};

use byte_numbers::two_bytes;
use fields::{Field, next_field};
use rules::{MOST, Settings};
use settings_values::{LONGEST_EDIT, PROFILE, TABLE, VERSION, WIDTH, has_longest};

// Whether a whole field of that tag and length stands at a place.
fn is_field(s: &[u8], at: usize, tag: u8, len: usize) -> bool
    ensures { result ≡ is_at s.now at (tag, len) }
{
    let Field::Whole { tag: met, content } = next_field(s, at) else {
        return false;
    };
    (met == tag) & (content.len == len)
}

// The version that a first field of tag 1 and one byte tells.
pub fn version_of(s: &[u8]) -> Option<usize>
    ensures { result ≡ version_in s.now }
{
    if is_field(s, 0, VERSION, 1) {
        return Some(usize::from(s[3]));
    }
    None
}

// Whether the bytes are exactly the fields of a version.
pub fn are_fields(s: &[u8], version: usize) -> bool
    ensures { result ≡ are_at (layout version) 0 s.now }
{
    let head = is_field(s, 0, VERSION, 1) & is_field(s, 4, TABLE, 1);
    let four = head & is_field(s, 8, PROFILE, 1) & is_field(s, 12, WIDTH, 1);
    if has_longest(version) {
        return four & is_field(s, 16, LONGEST_EDIT, 2) & (s.len() <= 21);
    }
    four & (s.len() <= 16)
}

// The longest edit in the fields of a version; version 1 reads as 4,096.
fn longest_at(s: &[u8], version: usize) -> usize
    requires { are_at (layout version) 0 s.now ≡ true }
    ensures { result ≡ (settings_at version s.now).longest }
{
    if has_longest(version) {
        return two_bytes(s, 19);
    }
    MOST
}

// The settings in the fields of a version.
pub fn settings_at(s: &[u8], version: usize) -> Settings
    requires { are_at (layout version) 0 s.now ≡ true }
    ensures { result ≡ settings_at version s.now }
{
    Settings {
        version,
        table: usize::from(s[7]),
        profile: usize::from(s[11]),
        width: usize::from(s[15]),
        longest: longest_at(s, version),
    }
}
