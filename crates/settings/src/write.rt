// The writer of settings.
ghost use Rattle.std.specs.Prelude.{◌≡◌, [], ◌∷◌, ◌++◌, ◌≤◌, ◌<◌, length, if◌then◌else◌};
ghost use Rattle.rules.specs.Bytes.{over};
ghost use Rattle.rules.specs.Refusals.{told};
ghost use Rattle.rules.specs.Storing.{in_two, field_bytes};
ghost use Rattle.rules.specs.Settings.{has_longest, store_of, written_settings};
ghost use Rattle.rules.specs.Answer.{written_of, bytes_of};
ghost use Rattle.settings.specs.Writing.{first_four, Writes};

use byte_numbers::write_two;
use fields::write_head;
use rules::{Refusal, Settings};
use settings_values::{
    LONGEST_EDIT, PROFILE, TABLE, VERSION, WIDTH, are_settings, has_longest, is_version,
};
use storing_numbers::write_one;

// Two fields of one byte each.
#[tactic(auto, unfolding(rules::specs::Storing::in_two, rules::specs::Storing::field_bytes, storing_numbers::specs::Fields::one_field))]
fn write_pair(tag: u8, value: usize, next: u8, other: usize, out: &mut [u8]) -> usize
    requires value_bound { (value < 256) × (other < 256) }
    requires in_bounds { 8 ≤ length out.old }
    ensures value { result ≡ 8 }
    ensures out_after { out.new ≡ over (field_bytes (record { tag = tag; content = value ∷ [] }) ++ field_bytes (record { tag = next; content = other ∷ [] })) out.old }
{
    let n = write_one(tag, value, out);
    n + write_one(next, other, &mut out[n..])
}

// The fields that both versions have.
fn write_four(x: Settings, out: &mut [u8]) -> usize
    requires writes { Writes x }
    requires in_bounds { 16 ≤ length out.old }
    ensures value { result ≡ 16 }
    ensures out_after { out.new ≡ over (first_four x) out.old }
{
    let n = write_pair(VERSION, x.version, TABLE, x.table, out);
    n + write_pair(PROFILE, x.profile, WIDTH, x.width, &mut out[n..])
}

// The field of the longest edit.
fn write_longest(longest: usize, out: &mut [u8]) -> usize
    requires longest_bound { longest < 65536 }
    requires in_bounds { 5 ≤ length out.old }
    ensures value { result ≡ 5 }
    ensures out_after { out.new ≡ over (field_bytes (record { tag = 5; content = in_two longest })) out.old }
{
    let n = write_head(LONGEST_EDIT, 2, out);
    n + write_two(longest, &mut out[n..])
}

// The store of settings that fit it.
fn write_store(x: Settings, out: &mut [u8]) -> usize
    requires writes { Writes x }
    requires x_in_bounds { length (store_of x) ≤ length out.old }
    ensures value { result ≡ length (store_of x) }
    ensures out_after { out.new ≡ over (store_of x) out.old }
{
    let n = write_four(x, out);
    if has_longest(x.version) {
        return n + write_longest(x.longest, &mut out[n..]);
    }
    n
}

// How many bytes the store of a version has.
fn store_size(version: usize) -> usize
    ensures { result ≡ (if has_longest version then 21 else 16) }
{
    if has_longest(version) { 21 } else { 16 }
}

// Writes the store of a version: 60, 62, then 63 where the buffer is too short.
pub fn write_settings(x: Settings, out: &mut [u8]) -> Result<usize, Refusal>
    ensures value { told result ≡ written_of (written_settings x (length out.old)) }
    ensures out_after { out.new ≡ over (bytes_of (written_settings x (length out.old))) out.old }
{
    if !is_version(x.version) {
        return Err(Refusal::Version);
    }
    if !are_settings(x) {
        return Err(Refusal::Setting);
    }
    if out.len() < store_size(x.version) {
        return Err(Refusal::SettingsRoom);
    }
    Ok(write_store(x, out))
}
