// Residues by the numbers of letters, which a walk has from bytes without a table: the same codes as the tables of 4,096, from the rows that
// aren't all X.
#![tactic(auto)]

ghost use Rattle.std.specs.Prelude.{◌≡◌, ℕ, ◌+◌, ◌*◌, ◌<◌, eqb, length, get_or, replicate, if◌then◌else◌};
ghost use Rattle.rows.specs.Rows.{row_in, HoldsRows, HoldsLetters};

// The first two letters of each row by their numbers, a hexadecimal digit each: none, AA, AC, AG, AT, CA, CC, CG, CT, RA, SA, GA, GC, GG, GT, TA,
// TC, TR, TG, TT, YT, MG.
const PAIRS: [u8; 22] =
    *b"\x44\x00\x03\x08\x09\x30\x33\x38\x39\x60\x70\x80\x83\x88\x89\x90\x93\x96\x98\x99\xe9\xf8";

// The rows of a code: sixteen residues each, by the third letter's number.
fn rows_of(table: usize) -> [u8; 352]
    requires { table < 3 }
    ensures { HoldsRows table result }
{
    match table {
        0 => STANDARD,
        1 => SELENOCYSTEINE,
        _ => MITOCHONDRIAL,
    }
}

// Puts a third letter's residues: each row's where its pair stands, over the first row's.
fn put_third(rows: &[u8; 352], c: usize, all: &mut [u8])
    requires c_bound { c < 16 }
    requires all_len { length all.old ≡ 4096 }
    requires by_index { (p : ℕ) → p < 256 → get_or all.old (c * 256 + p) 0 ≡ get_or rows.now (row_in 0 p * 16 + c) 0 }
    ensures { (d p : ℕ) → d < 16 → p < 256 → get_or all.new (d * 256 + p) 0 ≡ (if eqb d c then get_or rows.now (row_in 22 p * 16 + c) 0 else get_or all.old (d * 256 + p) 0) }
{
    let pairs = PAIRS;
    for k in 0..22 {
        let pair = usize::from(pairs[k]);
        all[c * 256 + pair] = rows[k * 16 + c];
    }
}

// Lays the residues of all codons of letters over a table of X, by the numbers of their letters: third * 256 + first * 16 + second. The table is
// lent, so that no call makes room for it twice.
pub fn lay_residues(table: usize, all: &mut [u8; 4096])
    requires table_bound { table < 3 }
    requires all_value { all.old ≡ replicate 4096 88 }
    ensures { HoldsLetters table all.new }
{
    let rows = rows_of(table);
    for c in 0..16 {
        put_third(&rows, c, all);
    }
}

// The residues of all codons of letters, by the numbers of their letters.
pub fn residues_by_number(table: usize) -> [u8; 4096]
    requires { table < 3 }
    ensures { HoldsLetters table result }
{
    let mut all = [b'X'; 4096];
    lay_residues(table, &mut all);
    all
}

// Four rows a line, in the order of the pairs.

// NCBI's code 1.
const STANDARD: [u8; 352] = *b"\
    XXXXXXXXXXXXXXXXKXXNXXKXKNXXXXNXTTTTXTTTTTTTTTTTRXXSXXRXRSXXXXSX\
    IXXIXXXXMIIXIXIIQXXHXXQXQHXXXXHXPPPPXPPPPPPPPPPPRRRRXRRRRRRRRRRR\
    LLLLXLLLLLLLLLLLXXXBXXXXXBXXXXBXZXXXXXZXZXXXXXXXEXXDXXEXEDXXXXDX\
    AAAAXAAAAAAAAAAAGGGGXGGGGGGGGGGGVVVVXVVVVVVVVVVV*XXYXX*X*YXXXXYX\
    SSSSXSSSSSSSSSSS*XXXXXXXXXXXXXXX*XXCXXXXWCXXXXCXLXXFXXLXLFXXXXFX\
    LXXXXXLXLXXXXXXXRXXXXXRXRXXXXXXX";

// The same, with TGA read as U.
const SELENOCYSTEINE: [u8; 352] = *b"\
    XXXXXXXXXXXXXXXXKXXNXXKXKNXXXXNXTTTTXTTTTTTTTTTTRXXSXXRXRSXXXXSX\
    IXXIXXXXMIIXIXIIQXXHXXQXQHXXXXHXPPPPXPPPPPPPPPPPRRRRXRRRRRRRRRRR\
    LLLLXLLLLLLLLLLLXXXBXXXXXBXXXXBXZXXXXXZXZXXXXXXXEXXDXXEXEDXXXXDX\
    AAAAXAAAAAAAAAAAGGGGXGGGGGGGGGGGVVVVXVVVVVVVVVVV*XXYXX*X*YXXXXYX\
    SSSSXSSSSSSSSSSSXXXXXXXXXXXXXXXXUXXCXXXXWCXXXXCXLXXFXXLXLFXXXXFX\
    LXXXXXLXLXXXXXXXRXXXXXRXRXXXXXXX";

// NCBI's code 2, of vertebrate mitochondria.
const MITOCHONDRIAL: [u8; 352] = *b"\
    XXXXXXXXXXXXXXXXKXXNXXKXKNXXXXNXTTTTXTTTTTTTTTTT*XXSXX*X*SXXXXSX\
    MXXIXXMXMIXXXXIXQXXHXXQXQHXXXXHXPPPPXPPPPPPPPPPPRRRRXRRRRRRRRRRR\
    LLLLXLLLLLLLLLLLXXXBXXXXXBXXXXBXZXXXXXZXZXXXXXXXEXXDXXEXEDXXXXDX\
    AAAAXAAAAAAAAAAAGGGGXGGGGGGGGGGGVVVVXVVVVVVVVVVV*XXYXX*X*YXXXXYX\
    SSSSXSSSSSSSSSSSXXXXXXXXXXXXXXXXWXXCXXWXWCXXXXCXLXXFXXLXLFXXXXFX\
    LXXXXXLXLXXXXXXXXXXXXXXXXXXXXXXX";
