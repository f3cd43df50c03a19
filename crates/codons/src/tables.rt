// The residues of plain codons, and a codon's residue in a table of 4,096 that is lent.
ghost use Rattle.std.specs.Prelude.{◌≡◌, ◌<◌};
ghost use Rattle.rules.specs.Codons.{codon_rule};
ghost use Rattle.codons.specs.Tables.{HoldsCode, HoldsPlain};

// The residues of the 64 plain codons, by the numbers b / 2 % 4 of their letters.
pub fn plain_code(table: usize) -> [u8; 64]
    requires { table < 3 }
    ensures { HoldsPlain table result }
{
    match table {
        0 => PLAIN_STANDARD,
        1 => PLAIN_SELENOCYSTEINE,
        _ => PLAIN_MITOCHONDRIAL,
    }
}

// The residue of a codon of three letter sets, from the residues of its table. An entry with an empty set is never read.
pub fn residue_in(table: usize, residues: &[u8; 4096], a: usize, b: usize, c: usize) -> u8
    requires holds_code { HoldsCode table residues.now }
    requires a_nonzero { (0 < a) × (a < 16) }
    requires b_nonzero { (0 < b) × (b < 16) }
    requires c_nonzero { (0 < c) × (c < 16) }
    ensures { result ≡ codon_rule table a b c }
{
    let i = a * 256 + b * 16 + c;
    residues[i]
}

// The three codes, of plain codons alone: by the numbers of their letters, A 0, C 1, T and U 2, G 3.
const PLAIN_STANDARD: [u8; 64] =
    *b"KNNKTTTTIIIMRSSRQHHQPPPPLLLLRRRR*YY*SSSSLFFL*CCWEDDEAAAAVVVVGGGG";

const PLAIN_SELENOCYSTEINE: [u8; 64] =
    *b"KNNKTTTTIIIMRSSRQHHQPPPPLLLLRRRR*YY*SSSSLFFLUCCWEDDEAAAAVVVVGGGG";

const PLAIN_MITOCHONDRIAL: [u8; 64] =
    *b"KNNKTTTTMIIM*SS*QHHQPPPPLLLLRRRR*YY*SSSSLFFLWCCWEDDEAAAAVVVVGGGG";
