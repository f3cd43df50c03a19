// Whether a proposed record that replays is the shortest.
#![tactic(auto)]

ghost use Rattle.std.specs.Prelude.{◌≡◌, ◌&&◌, List, ℕ};
ghost use Rattle.rules.specs.Check.{begins_there, leaves_ending};
ghost use Rattle.replays.specs.Proposed.{proposed};

use sequences::{common_prefix_len, common_suffix_len};

// Whether a proposal begins where the proteins part, and stops before the longest ending that they share behind that.
pub fn parts_there(reference: &[u8], altered: &[u8], number: usize, deleted: &[u8]) -> bool
    ensures { (put : List ℕ) → result ≡ (begins_there (proposed number deleted.now put) reference.now altered.now && leaves_ending (proposed number deleted.now put) reference.now altered.now) }
{
    let s = common_prefix_len(reference, altered);
    if number != s + 1 {
        return false;
    }
    let n = common_suffix_len(&reference[s..], &altered[s..]);
    number + deleted.len() == reference.len() - n + 1
}
