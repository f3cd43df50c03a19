// Refusals 20 to 25, then 1 to 5, 6 or 28, then 29, of a stored reference.
ghost use Rattle.std.specs.Prelude.{◌≡◌, ◌++◌, ◌+◌, ◌≤◌, length};
ghost use Rattle.rules.specs.Bytes.{over, given, unless};
ghost use Rattle.rules.specs.Record.{part_of};
ghost use Rattle.rules.specs.Refusal.{limits, reference_refusal};
ghost use Rattle.rules.specs.Refusals.{refusal_of, told};
ghost use Rattle.rules.specs.Stored.{fitted, read_reference, joined_by, written_joined};
ghost use Rattle.stored_fields.specs.Reading.{is_there, letters_at, placed_reference, Placed, Reads};

use fields::bytes_at;
use parts::judge_parts;
use reference::judge_reference;
use rules::{Form, LONGEST, Refusal};
use stored_fields::{StoredAt, exceptions_in, find_stored};

// Whether the letters are joined: there is a second part of them.
pub fn is_joined(p: StoredAt) -> bool
    ensures { result ≡ is_there p.second }
{
    p.second.len != 0
}

// The first of 1 to 5, 6 or 28 that applies to a reference whose letters are one part.
fn refusal_of_one(s: &[u8], p: StoredAt) -> Result<(), Refusal>
    requires placed { Placed s.now p }
    requires len_value { p.second.len ≡ 0 }
    ensures { refusal_of result ≡ reference_refusal limits.longest (placed_reference s.now p) }
{
    let e = exceptions_in(bytes_at(s, p.exceptions));
    judge_reference(bytes_at(s, p.letters), Form::Bytes, p.cds, e, LONGEST)?;
    Ok(())
}

// The first of 1 to 5, 6 or 28 that applies to a reference that stands in the bytes.
pub(crate) fn refusal_at(s: &[u8], p: StoredAt) -> Result<(), Refusal>
    requires { Placed s.now p }
    ensures { refusal_of result ≡ reference_refusal limits.longest (placed_reference s.now p) }
{
    if !is_joined(p) {
        return refusal_of_one(s, p);
    }
    let e = exceptions_in(bytes_at(s, p.exceptions));
    judge_parts(
        bytes_at(s, p.letters),
        bytes_at(s, p.second),
        bytes_at(s, p.third),
        p.cds,
        e,
    )
}

// Writes the letters behind those of the first part to the buffer's start.
fn join_rest(s: &[u8], p: StoredAt, out: &mut [u8])
    requires placed { Placed s.now p }
    requires len_in_bounds { p.second.len + p.third.len ≤ length out.old }
    ensures { out.new ≡ over (part_of p.second s.now ++ part_of p.third s.now) out.old }
{
    let n = bytewise::copy(bytes_at(s, p.second), out);
    bytewise::copy(bytes_at(s, p.third), &mut out[n..]);
}

// Writes the letters to the buffer's start, one part behind the other.
fn join(s: &[u8], p: StoredAt, joined: &mut [u8])
    requires placed { Placed s.now p }
    requires len_in_bounds { p.letters.len + (p.second.len + p.third.len) ≤ length joined.old }
    ensures { joined.new ≡ over (letters_at s.now p) joined.old }
{
    let n = bytewise::copy(bytes_at(s, p.letters), joined);
    join_rest(s, p, &mut joined[n..]);
}

// 29 where letters that are joined don't fit the buffer; else they are there.
fn join_within(s: &[u8], p: StoredAt, joined: &mut [u8]) -> Result<(), Refusal>
    requires placed { Placed s.now p }
    requires p_value { reference_refusal limits.longest (placed_reference s.now p) ≡ 0 }
    ensures fits { unless (refusal_of result) (placed_reference s.now p) ≡ fitted (length joined.old) (is_there p.second) (given (placed_reference s.now p)) }
    ensures joined_after { joined.new ≡ over (joined_by (is_there p.second) (fitted (length joined.old) (is_there p.second) (given (placed_reference s.now p)))) joined.old }
{
    if !is_joined(p) {
        return Ok(());
    }
    if joined.len() < p.letters.len + (p.second.len + p.third.len) {
        return Err(Refusal::JoinedRoom);
    }
    join(s, p, joined);
    Ok(())
}

// Where the reference that the bytes store stands in them, or its one refusal: 20, 21 and 23 in field order, then 22, 25, 1 to 5, 6 or 28, and
// 29. Letters in more than one part are joined in the buffer; those of one part stay where they are, and the buffer may be empty.
pub fn read_stored(s: &[u8], joined: &mut [u8]) -> Result<StoredAt, Refusal>
    ensures reads { Reads s.now (read_reference limits.longest (length joined.old) s.now) (told result) }
    ensures joined_after { joined.new ≡ over (written_joined limits.longest (length joined.old) s.now) joined.old }
{
    let p = find_stored(s)?;
    refusal_at(s, p)?;
    join_within(s, p, joined)?;
    Ok(p)
}
