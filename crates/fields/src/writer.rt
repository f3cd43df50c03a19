// The writer of fields, the reader's counterpart. Each function writes from the start of the rest of a buffer, which its caller lends on, and
// answers how many bytes it wrote; the bytes behind them stay.
ghost use Rattle.std.specs.Prelude.{◌≡◌, ◌∷◌, ◌+◌, ◌≤◌, ◌<◌, length};
ghost use Rattle.rules.specs.Bytes.{over};
ghost use Rattle.rules.specs.Storing.{in_two, field_bytes};

use byte_numbers::write_two;

// What stands before a content: the tag, and the content's length.
pub fn write_head(tag: u8, len: usize, out: &mut [u8]) -> usize
    requires len_bound { len < 65536 }
    requires in_bounds { 3 ≤ length out.old }
    ensures value { result ≡ 3 }
    ensures out_after { out.new ≡ over (tag ∷ in_two len) out.old }
{
    out[0] = tag;
    1 + write_two(len, &mut out[1..])
}

// One field.
pub fn write_field(tag: u8, content: &[u8], out: &mut [u8]) -> usize
    requires content_len_bound { length content.now < 65536 }
    requires content_in_bounds { 3 + length content.now ≤ length out.old }
    ensures value { result ≡ length (field_bytes (record { tag = tag; content = content.now })) }
    ensures out_after { out.new ≡ over (field_bytes (record { tag = tag; content = content.now })) out.old }
{
    let head = write_head(tag, content.len(), out);
    head + bytewise::copy(content, &mut out[head..])
}
