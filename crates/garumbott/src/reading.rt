// Stored references.
ghost use Rattle.std.specs.Prelude.{◌≡◌, ◌+◌, ◌≤◌, length, if◌then◌else◌};
ghost use Rattle.rules.specs.Bytes.{over};
ghost use Rattle.rules.specs.Refusal.{limits};
ghost use Rattle.rules.specs.Refusals.{refusal_number};
ghost use Rattle.rules.specs.Stored.{written_joined};
ghost use Rattle.garumbott.specs.Keeping.{placed_numbers, refused_numbers, stored_numbers};

use rules::Refusal;
use stored::{is_joined, read_stored};
use stored_fields::StoredAt;

// A reference's numbers, and where its letters and its exceptions stand in the host's bytes, or joined letters in the buffer that it lent; or a
// refusal's number.
#[repr(C)]
#[derive(Clone, Copy)]
pub struct GarumbottStored {
    pub refusal: u64,
    pub cs: u64,
    pub ce: u64,
    pub table: u64,
    pub letters_at: u64,
    pub letters_len: u64,
    pub exceptions_at: u64,
    pub exceptions_len: u64,
    pub end: u64,
    pub joined: u64,
}

// Joined letters stand at the start of their buffer.
fn letters_place(joined: bool, at: usize) -> u64
    ensures { result ≡ (if joined then 0 else at) }
{
    if joined { 0 } else { at as u64 }
}

fn placed(p: StoredAt) -> GarumbottStored
    requires { p.letters.len + (p.second.len + p.third.len) ≤ limits.longest }
    ensures { result ≡ placed_numbers p }
{
    let joined = is_joined(p);
    let letters_at = letters_place(joined, p.letters.at);
    GarumbottStored {
        refusal: 0,
        cs: p.cds.cs as u64,
        ce: p.cds.ce as u64,
        table: p.cds.table as u64,
        letters_at,
        letters_len: (p.letters.len + (p.second.len + p.third.len)) as u64,
        exceptions_at: p.exceptions.at as u64,
        exceptions_len: p.exceptions.len as u64,
        end: p.cds.end as u64,
        joined: joined as u64,
    }
}

fn refused(refusal: Refusal) -> GarumbottStored
    ensures { result ≡ refused_numbers (refusal_number refusal) }
{
    GarumbottStored {
        refusal: refusal.number() as u64,
        cs: 0,
        ce: 0,
        table: 0,
        letters_at: 0,
        letters_len: 0,
        exceptions_at: 0,
        exceptions_len: 0,
        end: 0,
        joined: 0,
    }
}

#[unsafe(no_mangle)]
pub extern "C" fn garumbott_read_stored(data: &[u8], joined: &mut [u8]) -> GarumbottStored
    ensures value { result ≡ stored_numbers (length joined.old) «data».now }
    ensures joined_after { joined.new ≡ over (written_joined limits.longest (length joined.old) «data».now) joined.old }
{
    match read_stored(data, joined) {
        Ok(p) => placed(p),
        Err(refusal) => refused(refusal),
    }
}
