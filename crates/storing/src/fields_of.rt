// The field of each tag.
ghost use Rattle.std.specs.Prelude.{◌≡◌, true, ◌≤◌, ◌<◌, length, take, drop};
ghost use Rattle.rules.specs.Bytes.{all, over};
ghost use Rattle.rules.specs.Letters.{is_letter};
ghost use Rattle.rules.specs.Packed.{letters_by};
ghost use Rattle.rules.specs.Storing.{tagged};
ghost use Rattle.rules.specs.Views.{reference_of};
ghost use Rattle.storing_numbers.specs.Fields.{one_field};
ghost use Rattle.storing.specs.Forming.{end_field, held_at, Clear};

use fields::write_head;
use packed::{copy_letters, size_of};
use rules::{Cds, Exceptions, Form};
use storing_exceptions::write_excepted;
use storing_numbers::{write_narrow, write_one, write_wide};

// The letters that a letter field holds.
const FULL: usize = 65535;

// The longest transcript whose bounds take two bytes each.
const NARROW: usize = 16384;

// The letters from a place on, a byte each, as many as one field holds; none where the transcript has ended.
fn write_letters(tag: u8, letters: &[u8], form: Form, from: usize, out: &mut [u8]) -> usize
    requires letters_value { all is_letter (letters_by form letters.now) ≡ true }
    requires letters_in_bounds { length (one_field (tagged tag (take 65535 (drop from (letters_by form letters.now))))) ≤ length out.old }
    ensures value { result ≡ length (one_field (tagged tag (take 65535 (drop from (letters_by form letters.now))))) }
    ensures out_after { out.new ≡ over (one_field (tagged tag (take 65535 (drop from (letters_by form letters.now))))) out.old }
{
    let size = size_of(letters, form);
    if size <= from {
        return 0;
    }
    let len = FULL.min(size - from);
    let head = write_head(tag, len, out);
    copy_letters(letters, form, from, from + len, &mut out[head..]);
    head + len
}

// Tag 8; none where the CDS ends at a stop.
fn write_end(c: Cds, out: &mut [u8]) -> usize
    requires end_bound { c.end < 256 }
    requires end_in_bounds { length (one_field (end_field c.end)) ≤ length out.old }
    ensures value { result ≡ length (one_field (end_field c.end)) }
    ensures out_after { out.new ≡ over (one_field (end_field c.end)) out.old }
{
    if c.end == 0 {
        return 0;
    }
    write_one(8, c.end, out)
}

// The field of a tag, 1 to 8.
pub(crate) fn write_tag(
    tag: u8,
    letters: &[u8],
    form: Form,
    c: Cds,
    e: Exceptions,
    out: &mut [u8],
) -> usize
    requires clear { Clear (letters_by form letters.now) c e }
    requires le_tag { (1 ≤ tag) × (tag ≤ 8) }
    requires e_in_bounds { length (one_field (held_at tag (reference_of (letters_by form letters.now) c e))) ≤ length out.old }
    ensures value { result ≡ length (one_field (held_at tag (reference_of (letters_by form letters.now) c e))) }
    ensures out_after { out.new ≡ over (one_field (held_at tag (reference_of (letters_by form letters.now) c e))) out.old }
{
    let long = NARROW < size_of(letters, form);
    match tag {
        1 => write_letters(1, letters, form, 0, out),
        2 => write_narrow(long, c, out),
        3 => write_one(3, c.table, out),
        4 => write_excepted(e, out),
        5 => write_letters(5, letters, form, FULL, out),
        6 => write_letters(6, letters, form, 2 * FULL, out),
        7 => write_wide(long, c, out),
        _ => write_end(c, out),
    }
}
