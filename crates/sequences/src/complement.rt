// The reverse complement of letters.
ghost use Rattle.std.specs.Prelude.{◌≡◌, true, ◌≤◌, length};
ghost use Rattle.rules.specs.Bytes.{all, over};
ghost use Rattle.rules.specs.Letters.{is_letter};
ghost use Rattle.rules.specs.Complement.{reverse_complement, complemented};
ghost use Rattle.rules.specs.Answer.{written_of, bytes_of};
ghost use Rattle.rules.specs.Refusals.{told};
ghost use Rattle.letters.specs.Sets.{HoldsComplements};

use bytewise::all_bytes;
use letters::complement::{complement_of, complements};
use letters::is_letter;
use rules::Refusal;

// Whether each byte is one of the fifteen letters.
pub fn all_letters(seq: &[u8]) -> bool
    ensures { result ≡ all is_letter seq.now }
{
    all_bytes(seq, is_letter)
}

// Writes the reverse complement of letters, by the table of complements, to the buffer's start.
fn write_reversed(seq: &[u8], complements: &[u8; 32], out: &mut [u8])
    requires holds_complements { HoldsComplements complements.now }
    requires seq_value { all is_letter seq.now ≡ true }
    requires seq_in_bounds { length seq.now ≤ length out.old }
    ensures { out.new ≡ over (reverse_complement seq.now) out.old }
{
    let n = seq.len();
    for i in 0..n {
        out[i] = complement_of(complements, seq[n - 1 - i]);
    }
}

// Writes the reverse complement of letters to the buffer's start.
pub fn write_revcomp(seq: &[u8], out: &mut [u8])
    requires seq_value { all is_letter seq.now ≡ true }
    requires seq_in_bounds { length seq.now ≤ length out.old }
    ensures { out.new ≡ over (reverse_complement seq.now) out.old }
{
    let complements = complements();
    write_reversed(seq, &complements, out);
}

// The reverse complement: 15 for too little room, then 2 for a byte that is none of the fifteen letters.
pub fn revcomp(seq: &[u8], out: &mut [u8]) -> Result<usize, Refusal>
    ensures value { told result ≡ written_of (complemented seq.now (length out.old)) }
    ensures out_after { out.new ≡ over (bytes_of (complemented seq.now (length out.old))) out.old }
{
    if out.len() < seq.len() {
        return Err(Refusal::Output);
    }
    if !all_letters(seq) {
        return Err(Refusal::Letter);
    }
    write_revcomp(seq, out);
    Ok(seq.len())
}
