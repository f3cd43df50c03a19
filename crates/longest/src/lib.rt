// The longest edit of a call: with a smaller one, refusal 10's limit reads that number.
#![tactic(auto)]

ghost use Rattle.std.specs.Prelude.{◌≡◌};
ghost use Rattle.rules.specs.Longest.{is_given_longest, limits_with};
ghost use Rattle.rules.proofs.WithLongest.{is_counted, bases_within};

use rules::{Kind, MOST};

// 1 to 4,096, or 0 for 4,096; any other is refused with 62, before 1.
pub fn is_given_longest(n: usize) -> bool
    ensures { result ≡ is_given_longest n }
{
    n <= MOST
}

// Refusal 10's limit.
fn most_of(longest: usize) -> usize
    ensures { result ≡ (limits_with longest).most }
{
    if longest == 0 { MOST } else { longest }
}

// The kinds whose new bases the longest edit counts.
fn is_counted(kind: Kind) -> bool
    ensures { result ≡ is_counted kind }
{
    matches!(kind, Kind::Delins | Kind::Insertion)
}

// The new bases as they are handed on: none, where they are counted and too many. 10 refuses them then, in its place.
pub fn bases_within(longest: usize, kind: Kind, new: &[u8]) -> &[u8]
    ensures { result.now ≡ bases_within longest kind new.now }
{
    if is_counted(kind) & (most_of(longest) < new.len()) {
        return &new[..0];
    }
    new
}
