// "Compare two editions of a transcript": the codons in which two references differ, counted, then written.
#![tactic(auto)]

ghost use Rattle.std.specs.Prelude.{◌≡◌, length};
ghost use Rattle.rules.specs.Bytes.{over};
ghost use Rattle.rules.specs.Refusal.{limits};
ghost use Rattle.rules.specs.Editions.{codon_count, compared};
ghost use Rattle.rules.specs.Answer.{written_of, bytes_of};
ghost use Rattle.alike.specs.Reading.{edition_of, Fits};
ghost use Rattle.editions.specs.Listing.{listing};
ghost use Rattle.editions.specs.Uncompared.{uncompared_number, compared_told};

pub use alike::Edition;
use differences::{count_differences, write_differences};
use reference::judge_reference;
use rules::{LONGEST, Refusal};
use tables::residues_of;

// Why two editions aren't compared: what refuses the first, or the list where it doesn't fit; or what refuses the second.
#[derive(Clone, Copy)]
pub enum Uncompared {
    First(Refusal),
    Second(Refusal),
}

impl Uncompared {
    // The number that a host and the tool show: the second's refusals are those with 100 added.
    pub fn number(self) -> usize
        ensures { result ≡ uncompared_number self }
    {
        match self {
            Uncompared::First(refusal) => refusal.number(),
            Uncompared::Second(refusal) => 100 + refusal.number(),
        }
    }
}

// The number of codons of a CDS, a cut one counted.
fn codon_count(letters: &[u8], x: Edition) -> usize
    requires { Fits letters.now x }
    ensures { result ≡ codon_count (edition_of letters.now x) }
{
    let c = x.cds;
    (c.ce - (c.cs - 1)).div_ceil(3)
}

// The list of two references that were judged, or 50 where it doesn't fit.
fn list_differences(
    first: &[u8],
    r: Edition,
    second: &[u8],
    s: Edition,
    out: &mut [u8],
) -> Result<usize, Uncompared>
    requires fits { Fits first.now r }
    requires second_fits { Fits second.now s }
    ensures answer { compared_told result ≡ written_of (listing (edition_of first.now r) (edition_of second.now s) (length out.old)) }
    ensures written { out.new ≡ over (bytes_of (listing (edition_of first.now r) (edition_of second.now s) (length out.old))) out.old }
{
    let a = residues_of(r.cds.table);
    let b = residues_of(s.cds.table);
    let past = codon_count(first, r).max(codon_count(second, s)) + 1;
    let n = count_differences(first, r, &a, second, s, &b, past);
    if out.len() < n * 4 {
        return Err(Uncompared::First(Refusal::List));
    }
    write_differences(first, r, &a, second, s, &b, past, out);
    Ok(n * 4)
}

// Writes the differences of two references, four bytes each, to the buffer's start, or answers the first's refusal, the second's, or 50. A
// refusal changes no byte.
pub fn compare(
    first: &[u8],
    r: Edition,
    second: &[u8],
    s: Edition,
    out: &mut [u8],
) -> Result<usize, Uncompared>
    ensures answer { compared_told result ≡ written_of (compared limits.longest (edition_of first.now r) (edition_of second.now s) (length out.old)) }
    ensures written { out.new ≡ over (bytes_of (compared limits.longest (edition_of first.now r) (edition_of second.now s) (length out.old))) out.old }
{
    // Kept: a match and no `?`, since a refusal of the first and one of the second go to variants of their own.
    match judge_reference(first, r.form, r.cds, r.e, LONGEST) {
        Err(refusal) => Err(Uncompared::First(refusal)),
        Ok(_) => match judge_reference(second, s.form, s.cds, s.e, LONGEST) {
            Err(refusal) => Err(Uncompared::Second(refusal)),
            Ok(_) => list_differences(first, r, second, s, out),
        },
    }
}
