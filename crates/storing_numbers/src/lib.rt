// The fields of a reference's numbers: its bounds in two bytes or in four, and a number in one byte.
#![tactic(auto)]

ghost use Rattle.std.specs.Prelude.{◌≡◌, [], ◌∷◌, ◌++◌, false, ◌≤◌, ◌<◌, length};
ghost use Rattle.rules.specs.Bytes.{over};
ghost use Rattle.rules.specs.Storing.{in_two, in_four, tagged};
ghost use Rattle.storing_numbers.specs.Fields.{one_field, narrow_bounds, wide_bounds};

use byte_numbers::{write_four, write_two};
use fields::write_field;
use rules::Cds;

// Kept: one function for each width, since one for both would take the writer of a number, its bytes, its bound and its form: it is no plainer.

// cs, then ce, two bytes each.
fn write_two_each(c: Cds, out: &mut [u8]) -> usize
    requires cs_bound { (c.cs < 65536) × (c.ce < 65536) }
    requires in_bounds { 4 ≤ length out.old }
    ensures value { result ≡ 4 }
    ensures out_after { out.new ≡ over (in_two c.cs ++ in_two c.ce) out.old }
{
    let start = write_two(c.cs, out);
    start + write_two(c.ce, &mut out[start..])
}

// Four bytes each.
fn write_four_each(c: Cds, out: &mut [u8]) -> usize
    requires cs_bound { (c.cs < 4294967296) × (c.ce < 4294967296) }
    requires in_bounds { 8 ≤ length out.old }
    ensures value { result ≡ 8 }
    ensures out_after { out.new ≡ over (in_four c.cs ++ in_four c.ce) out.old }
{
    let start = write_four(c.cs, out);
    start + write_four(c.ce, &mut out[start..])
}

// Kept: one function for each tag, since one for both would take the tag, the test, the width and the form: it is no plainer.

// Tag 2; none where the transcript is long.
pub fn write_narrow(long: bool, c: Cds, out: &mut [u8]) -> usize
    requires cs_bound { long ≡ false → (c.cs < 65536) × (c.ce < 65536) }
    requires c_in_bounds { length (one_field (narrow_bounds long c)) ≤ length out.old }
    ensures value { result ≡ length (one_field (narrow_bounds long c)) }
    ensures out_after { out.new ≡ over (one_field (narrow_bounds long c)) out.old }
{
    if long {
        return 0;
    }
    let mut content = [0u8; 4];
    write_two_each(c, &mut content);
    write_field(2, &content, out)
}

// Tag 7; none where it isn't.
pub fn write_wide(long: bool, c: Cds, out: &mut [u8]) -> usize
    requires cs_bound { (c.cs < 4294967296) × (c.ce < 4294967296) }
    requires c_in_bounds { length (one_field (wide_bounds long c)) ≤ length out.old }
    ensures value { result ≡ length (one_field (wide_bounds long c)) }
    ensures out_after { out.new ≡ over (one_field (wide_bounds long c)) out.old }
{
    if !long {
        return 0;
    }
    let mut content = [0u8; 8];
    write_four_each(c, &mut content);
    write_field(7, &content, out)
}

// A field of one byte.
pub fn write_one(tag: u8, n: usize, out: &mut [u8]) -> usize
    requires n_bound { n < 256 }
    requires n_in_bounds { length (one_field (tagged tag (n ∷ []))) ≤ length out.old }
    ensures value { result ≡ length (one_field (tagged tag (n ∷ []))) }
    ensures out_after { out.new ≡ over (one_field (tagged tag (n ∷ []))) out.old }
{
    let content = [n as u8; 1];
    write_field(tag, &content, out)
}
