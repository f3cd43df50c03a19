// The codons of two CDS side by side, from one difference to the next.
#![tactic(auto)]

ghost use Rattle.std.specs.Prelude.{◌≡◌, ◌-◌, ◌<◌, ◌≤◌, length};
ghost use Rattle.rules.specs.Bytes.{each, over};
ghost use Rattle.rules.specs.Editions.{difference_at, differences_from, difference_bytes};
ghost use Rattle.alike.specs.Reading.{edition_of};
ghost use Rattle.skips.specs.Walks.{Reads};

use alike::Edition;
use entries::{entry_of, residue_by};
use skips::next_difference;

// How many codons before `past` aren't equal.
pub fn count_differences(
    first: &[u8],
    r: Edition,
    a: &[u8; 4096],
    second: &[u8],
    s: Edition,
    b: &[u8; 4096],
    past: usize,
) -> usize
    requires reads { Reads first.now r a.now }
    requires reads_2 { Reads second.now s b.now }
    requires le_past { (1 ≤ past) × (past ≤ 65536) }
    ensures value { result ≡ length (differences_from (edition_of first.now r) (edition_of second.now s) 1 (past - 1)) }
    ensures few { result < past }
{
    let mut count = 0;
    let mut n = next_difference(first, r, a, second, s, b, 1, past);
    // Kept: no for, since each turn finds where the next begins.
    while n < past {
        count += 1;
        n = next_difference(first, r, a, second, s, b, n + 1, past);
    }
    count
}

// Writes a difference to the buffer's start: the codon's number in two bytes, high byte first, then both residues.
fn put_difference(
    first: &[u8],
    r: Edition,
    a: &[u8; 4096],
    second: &[u8],
    s: Edition,
    b: &[u8; 4096],
    n: usize,
    out: &mut [u8],
)
    requires reads { Reads first.now r a.now }
    requires reads_2 { Reads second.now s b.now }
    requires le_n { (1 ≤ n) × (n < 65536) }
    requires in_bounds { 4 ≤ length out.old }
    ensures { out.new ≡ over (difference_bytes (difference_at (edition_of first.now r) (edition_of second.now s) n)) out.old }
{
    let f = r.form;
    let c = r.cds;
    let g = s.form;
    let d = s.cds;
    let p = entry_of(first, f, c, n);
    let q = entry_of(second, g, d, n);
    out[0] = (n / 256) as u8;
    out[1] = (n % 256) as u8;
    out[2] = residue_by(a, r.e, p, n);
    out[3] = residue_by(b, s.e, q, n);
}

// Writes each difference before `past` to the buffer's start, in rising number.
pub fn write_differences(
    first: &[u8],
    r: Edition,
    a: &[u8; 4096],
    second: &[u8],
    s: Edition,
    b: &[u8; 4096],
    past: usize,
    out: &mut [u8],
)
    requires reads { Reads first.now r a.now }
    requires reads_2 { Reads second.now s b.now }
    requires le_past { (1 ≤ past) × (past ≤ 65536) }
    requires past_in_bounds { length (each difference_bytes (differences_from (edition_of first.now r) (edition_of second.now s) 1 (past - 1))) ≤ length out.old }
    ensures { out.new ≡ over (each difference_bytes (differences_from (edition_of first.now r) (edition_of second.now s) 1 (past - 1))) out.old }
{
    let mut at = 0;
    let mut n = next_difference(first, r, a, second, s, b, 1, past);
    // Kept: no for, since each turn finds where the next begins.
    while n < past {
        put_difference(first, r, a, second, s, b, n, &mut out[at..]);
        at += 4;
        n = next_difference(first, r, a, second, s, b, n + 1, past);
    }
}
