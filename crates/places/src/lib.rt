// The places of codons in the tables by the numbers of letters, from several bytes in one number.
#![tactic(auto)]

ghost use Rattle.std.specs.Prelude.{◌≡◌, ◌+◌, ◌*◌, ◌/◌, ◌%◌, ◌<◌, ◌≤◌, length};
ghost use Rattle.places.specs.Places.{place_at, entry_at, entries_of, three_at};

use numbers::eight_at;

// Three bytes from place k on as one number, the first lowest.
fn three_at(s: &[u8], k: usize) -> usize
    requires { k + 3 ≤ length s.now }
    ensures { result ≡ three_at s.now k }
{
    usize::from(s[k]) + usize::from(s[k + 1]) * 256 + usize::from(s[k + 2]) * 65536
}

// The places of plain codons i and i + 1 among the 64: from bit 17 on, and from bit 41 on, six bits each. The mask keeps each letter's number
// b / 2 % 4, and the product brings the three of a codon together.
pub fn pair_at(seq: &[u8], i: usize) -> usize
    requires { i * 3 + 8 ≤ length seq.now }
    ensures result_value { result / 131072 % 64 ≡ place_at seq.now i }
    ensures second { result / 2199023255552 % 64 ≡ place_at seq.now (i + 1) }
{
    (eight_at(seq, i * 3) & 0x060606060606) * 0x100401
}

// The place of plain codon i among the 64, by the numbers of its letters.
#[tactic(auto, unfolding(crate::specs::Places::place_at))]
pub fn place_at(seq: &[u8], i: usize) -> usize
    requires { i < length seq.now / 3 }
    ensures { result ≡ place_at seq.now i }
{
    let a = usize::from(seq[i * 3]) / 2 % 4;
    let b = usize::from(seq[i * 3 + 1]) / 2 % 4;
    let c = usize::from(seq[i * 3 + 2]) / 2 % 4;
    a * 16 + b * 4 + c
}

// The places of the two codons of six letters among the 4,096: from bit 10 on, and from bit 34 on, twelve bits each. The masks and the sum leave
// each letter's number in bits 2 to 5 of its byte, and the product brings the three of a codon together.
#[tactic(auto, unfolding(crate::specs::Places::entries_of))]
fn entries_of(six: usize) -> usize
    ensures { result ≡ entries_of six }
{
    let sums = (six & 0x1f1f1f1f1f1f) + (six & 0x0e0e0e0e0e0e) * 4 + 0x010101010101;
    (sums & 0x3c3c3c3c3c3c) * 4097
}

// The places of codons i and i + 1 among the 4,096.
pub fn entries_at(seq: &[u8], i: usize) -> usize
    requires { i * 3 + 8 ≤ length seq.now }
    ensures result_value { result / 1024 % 4096 ≡ entry_at seq.now i }
    ensures second { result / 17179869184 % 4096 ≡ entry_at seq.now (i + 1) }
{
    entries_of(eight_at(seq, i * 3))
}

// The place of codon i among the 4,096.
pub fn entry_at(seq: &[u8], i: usize) -> usize
    requires { i < length seq.now / 3 }
    ensures value { result ≡ entry_at seq.now i }
    ensures small { result < 4096 }
{
    entries_of(three_at(seq, i * 3)) / 1024 % 4096
}
