// Where a reference stands in the bytes that store it. Whether it is one that a call takes, 1 to 5, 6 or 28, isn't judged here.
ghost use Rattle.std.specs.Prelude.{◌≡◌, Some, get_or};
ghost use Rattle.rules.specs.Bytes.{given};
ghost use Rattle.rules.specs.Reference.{at_stop};
ghost use Rattle.rules.specs.Refusals.{told};
ghost use Rattle.rules.specs.Stored.{reference_form, fields, assembled_in};
ghost use Rattle.fields.specs.Places.{content_at, part_or_empty};
ghost use Rattle.fields.specs.Refusals.{refusal_in};
ghost use Rattle.stored_places.specs.Refusal.{places_refusal};
ghost use Rattle.stored_fields.specs.Reading.{cds_in, Fit, Stand, Reads};

use crate::order::fields_refusal;
use byte_numbers::{four_bytes, two_bytes};
use fields::{bytes_at, content_of};
use rules::{Cds, Part, Refusal};
use stored_places::{Places, places_refusal};
use stored_tags::{BOUNDS, END, EXCEPTIONS, LETTERS, SECOND, TABLE, THIRD, WIDE};

// A stored reference: its numbers, and where its letters, one part behind the other, and its exceptions stand in the caller's bytes.
#[derive(Clone, Copy)]
pub struct StoredAt {
    pub cds: Cds,
    pub letters: Part,
    pub second: Part,
    pub third: Part,
    pub exceptions: Part,
}

// Where the content of a tag stands; 0 bytes at 0 where there is none.
#[tactic(auto, unfolding(fields::specs::Places::part_or_empty))]
fn place_of(s: &[u8], tag: u8) -> Part
    ensures { result ≡ part_or_empty (content_at tag s.now) }
{
    content_of(s, tag).unwrap_or(Part { at: 0, len: 0 })
}

fn places_of(s: &[u8], letters: Part) -> Places
    requires s_value { refusal_in (fields reference_form s.now) ≡ 0 }
    requires letters_value { Some letters ≡ content_at 1 s.now }
    ensures { Stand s.now result }
{
    Places {
        letters,
        bounds: place_of(s, BOUNDS),
        table: place_of(s, TABLE),
        exceptions: place_of(s, EXCEPTIONS),
        second: place_of(s, SECOND),
        third: place_of(s, THIRD),
        wide: place_of(s, WIDE),
        end: place_of(s, END),
    }
}

// The end that the content of tag 8 tells; with none, at a stop.
fn end_in(end: &[u8]) -> usize
    ensures { result ≡ get_or end.now 0 at_stop }
{
    if end.len() == 0 {
        return 0;
    }
    usize::from(end[0])
}

// The numbers that the contents of tags 2 or 7, 3 and 8 hold.
fn cds_in(bounds: &[u8], long: &[u8], table: &[u8], end: &[u8]) -> Cds
    requires { Fit bounds.now long.now table.now }
    ensures { result ≡ cds_in bounds.now long.now table.now end.now }
{
    let table = usize::from(table[0]);
    let end = end_in(end);
    if bounds.len() == 0 {
        return Cds {
            cs: four_bytes(long, 0),
            ce: four_bytes(long, 4),
            table,
            end,
        };
    }
    Cds {
        cs: two_bytes(bounds, 0),
        ce: two_bytes(bounds, 2),
        table,
        end,
    }
}

// Where it stands, by the places of contents that neither 22 nor 25 refuses.
fn stored_at(s: &[u8], p: Places) -> StoredAt
    requires stand { Stand s.now p }
    requires p_value { places_refusal p ≡ 0 }
    ensures { Reads s.now (assembled_in (fields reference_form s.now)) (given result) }
{
    let letters = p.letters;
    let second = p.second;
    let third = p.third;
    let exceptions = p.exceptions;
    let cds = cds_in(
        bytes_at(s, p.bounds),
        bytes_at(s, p.wide),
        bytes_at(s, p.table),
        bytes_at(s, p.end),
    );
    StoredAt {
        cds,
        letters,
        second,
        third,
        exceptions,
    }
}

// 20, 21 and 23 in field order, then 22, then 25, or where the reference stands.
pub fn find_stored(s: &[u8]) -> Result<StoredAt, Refusal>
    ensures { Reads s.now (assembled_in (fields reference_form s.now)) (told result) }
{
    fields_refusal(s)?;
    let Some(letters) = content_of(s, LETTERS) else {
        return Err(Refusal::Missing);
    };
    let places = places_of(s, letters);
    places_refusal(places)?;
    Ok(stored_at(s, places))
}
