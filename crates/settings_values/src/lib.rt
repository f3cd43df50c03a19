// What settings may be, and the tags that they are stored under.
#![tactic(auto)]

ghost use Rattle.std.specs.Prelude.{◌≡◌};
ghost use Rattle.rules.specs.Settings.{is_version, has_longest, is_longest, are_settings};

use rules::{MOST, Settings};

pub const VERSION: u8 = 1;

pub const TABLE: u8 = 2;

pub const PROFILE: u8 = 3;

pub const WIDTH: u8 = 4;
// Two bytes, in version 2 alone.
pub const LONGEST_EDIT: u8 = 5;

#[tactic(auto, unfolding(rules::specs::Settings::is_version))]
pub fn is_version(v: usize) -> bool
    ensures { result ≡ is_version v }
{
    (1 <= v) & (v <= 2)
}

// Whether a version stores the longest edit.
#[tactic(auto, unfolding(rules::specs::Settings::has_longest))]
pub fn has_longest(version: usize) -> bool
    ensures { result ≡ has_longest version }
{
    version == 2
}

// 1 to 4,096 bases.
#[tactic(auto, unfolding(rules::specs::Settings::is_longest))]
fn is_longest(n: usize) -> bool
    ensures { result ≡ is_longest n }
{
    (1 <= n) & (n <= MOST)
}

// Whether each is in its range; the longest edit of version 1 is 4,096.
#[tactic(auto, unfolding(rules::specs::Settings::are_settings, rules::specs::Codons::is_table))]
pub fn are_settings(x: Settings) -> bool
    ensures { result ≡ are_settings x }
{
    let first = (x.table <= 2) & (x.profile <= 1) & ((x.width == 1) | (x.width == 3));
    first & is_longest(x.longest) & (has_longest(x.version) | (x.longest == MOST))
}
