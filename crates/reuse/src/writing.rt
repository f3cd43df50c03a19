// A in three pieces: residues of R, residues that are read, residues of R.
ghost use Rattle.std.specs.Prelude.{◌≡◌, [], ◌+◌, length, drop};
ghost use Rattle.rules.specs.Bytes.{over};
ghost use Rattle.rules.specs.Translation.{folded_translated};
ghost use Rattle.walks.specs.Walks.{codons_walked};
ghost use Rattle.reuse.specs.Reusing.{ends_in_stop, resumed, behind_of, Resumes, reused_by, Reuses, read_by};

use crate::pieces::Pieces;
use rules::Exceptions;
use walks::write_through_stop;

// How many residues were written, how many codons were looked up, and how many of R's residues stand behind what was read.
#[derive(Clone, Copy)]
pub struct Reused {
    pub residues: usize,
    pub looked: usize,
    pub behind: usize,
}

// Whether the last residue is a stop.
#[tactic(auto, unfolding(crate::specs::Reusing::ends_in_stop))]
pub fn ends_in_stop(s: &[u8]) -> bool
    ensures { result ≡ ends_in_stop s.now }
{
    s.last() == Some(&b'*')
}

// Reads letters to the buffer's start, and unless a stop ends them, the rest of R goes on behind them.
fn write_resumed(
    seq: &[u8],
    table: usize,
    plain: bool,
    none: Exceptions,
    rest: &[u8],
    out: &mut [u8],
) -> Reused
    requires { Resumes table plain seq.now none rest.now out.old }
    ensures residues_value { result.residues ≡ length (resumed (folded_translated table [] seq.now) rest.now) }
    ensures looked { result.looked ≡ codons_walked table [] seq.now }
    ensures behind { result.behind ≡ behind_of (folded_translated table [] seq.now) rest.now }
    ensures written { out.new ≡ over (resumed (folded_translated table [] seq.now) rest.now) out.old }
{
    let walked = write_through_stop(seq, table, plain, none, out);
    let n = walked.residues;
    let looked = walked.looked;
    if ends_in_stop(&out[..n]) {
        return Reused {
            residues: n,
            looked,
            behind: 0,
        };
    }
    let more = bytewise::copy(rest, &mut out[n..]);
    Reused {
        residues: n + more,
        looked,
        behind: more,
    }
}

// Writes A to the buffer's start: the head of R, the letters that are read, and R where it goes on.
pub fn write_reusing(
    transcript: &[u8],
    table: usize,
    plain: bool,
    none: Exceptions,
    protein: &[u8],
    pieces: Pieces,
    altered: &mut [u8],
) -> Reused
    requires { Reuses table plain transcript.now none protein.now pieces altered.old }
    ensures residues_value { result.residues ≡ length (reused_by table transcript.now protein.now pieces) }
    ensures looked { result.looked ≡ codons_walked table [] (read_by transcript.now pieces) }
    ensures behind { result.behind ≡ behind_of (folded_translated table [] (read_by transcript.now pieces)) (drop pieces.back protein.now) }
    ensures written { altered.new ≡ over (reused_by table transcript.now protein.now pieces) altered.old }
{
    let head = pieces.head;
    let start = pieces.start;
    let end = pieces.end;
    let back = pieces.back;
    bytewise::copy(&protein[..head], altered);
    let read = write_resumed(
        &transcript[start..end],
        table,
        plain,
        none,
        &protein[back..],
        &mut altered[head..],
    );
    Reused {
        residues: head + read.residues,
        looked: read.looked,
        behind: read.behind,
    }
}
