// Where the contents of a stored reference's tags stand, and what their lengths are refused with: 22, then 25.
#![tactic(auto)]

ghost use Rattle.std.specs.Prelude.{◌≡◌};
ghost use Rattle.rules.specs.Refusals.{refusal_of};
ghost use Rattle.stored_places.specs.Refusal.{is_there, is_early, places_refusal};

use rules::{Part, Refusal, SHORT};

// The letters that fill a field.
const FULL: usize = 65535;

// Where the contents of the tags stand; 0 bytes at 0 where there is none.
#[derive(Clone, Copy)]
pub struct Places {
    pub letters: Part,
    pub bounds: Part,
    pub table: Part,
    pub exceptions: Part,
    pub second: Part,
    pub third: Part,
    pub wide: Part,
    pub end: Part,
}

// Whether there is a field, of a tag whose contents aren't empty.
fn is_there(p: Part) -> bool
    ensures { result ≡ is_there p }
{
    p.len != 0
}

// Whether a letter field is begun before the last was full.
fn is_early(last: Part, p: Part) -> bool
    ensures { result ≡ is_early last p }
{
    is_there(p) & (last.len != FULL)
}

// 22, then 25. A second letter field stands behind a full one, so that L is above 16,384. Tag 2 is wrong for a long transcript, tag 7 for a
// short one.
#[tactic(auto, unfolding(crate::specs::Refusal::places_refusal, rules::specs::Bytes::first_number))]
pub fn places_refusal(p: Places) -> Result<(), Refusal>
    ensures { refusal_of result ≡ places_refusal p }
{
    let narrow = is_there(p.bounds);
    let wide = is_there(p.wide);
    if !(narrow | wide) | !is_there(p.table) {
        return Err(Refusal::Missing);
    }
    let long = is_there(p.second) | (SHORT < p.letters.len);
    let wrong_bounds = if long { narrow } else { wide };
    if wrong_bounds | is_early(p.letters, p.second) | is_early(p.second, p.third) {
        return Err(Refusal::Parts);
    }
    Ok(())
}
