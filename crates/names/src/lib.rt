// One-letter and three-letter residue names, by one table that is read both ways. Case counts.
#![tactic(auto)]

ghost use Rattle.std.specs.Prelude.{◌≡◌, true, [], ◌∷◌, ◌<◌, ◌≤◌, ◌*◌, ◌/◌, ◌%◌, length};
ghost use Rattle.std.specs.Option.{is_some, IfSome};
ghost use Rattle.rules.specs.Bytes.{all, each, over};
ghost use Rattle.rules.specs.Names.{three_of, one_of, threes, three_letters, one_letters};
ghost use Rattle.rules.specs.Answer.{written_of, bytes_of};
ghost use Rattle.rules.specs.Refusals.{told};
ghost use Rattle.names.specs.Rows.{table, three_at, one_at, is_one, is_three};

use rules::Refusal;

// The names of IUPAC in 25 rows: the letter of a residue, and its three.
const NAMES: [u8; 100] = *b"\
AAlaRArgNAsnDAspCCys\
QGlnEGluGGlyHHisIIle\
LLeuKLysMMetFPhePPro\
SSerTThrWTrpYTyrVVal\
USecXXaaBAsxZGlx*Ter";

// The table, to be loaded once a call and lent.
fn name_table() -> [u8; 100]
    ensures { result ≡ table }
{
    NAMES
}

// The row of a residue's letter, if it has one.
fn row_of_one(names: &[u8; 100], one: u8) -> Option<usize>
    requires { names.now ≡ table }
    ensures known { is_some result ≡ is_one one }
    ensures row { IfSome result (λ k. (k < 25) × (three_of one ≡ three_at k)) }
{
    for k in 0..25 {
        if one == names[k * 4] {
            return Some(k);
        }
    }
    None
}

// The row of three letters, if they are a name.
fn row_of_three(names: &[u8; 100], a: u8, b: u8, c: u8) -> Option<usize>
    requires { names.now ≡ table }
    ensures known { is_some result ≡ is_three (a ∷ b ∷ c ∷ []) }
    ensures row { IfSome result (λ k. (k < 25) × (one_of (a ∷ b ∷ c ∷ []) ≡ one_at k)) }
{
    for k in 0..25 {
        let at = k * 4;
        if (a == names[at + 1]) & ((b == names[at + 2]) & (c == names[at + 3])) {
            return Some(k);
        }
    }
    None
}

// Whether each byte is the letter of a residue.
fn are_ones(one: &[u8], names: &[u8; 100]) -> bool
    requires { names.now ≡ table }
    ensures { result ≡ all is_one one.now }
{
    for i in 0..one.len() {
        if row_of_one(names, one[i]).is_none() {
            return false;
        }
    }
    true
}

// Whether each three bytes are the name of a residue.
fn are_threes(three: &[u8], names: &[u8; 100]) -> bool
    requires names_value { names.now ≡ table }
    requires three_len { length three.now % 3 ≡ 0 }
    ensures { result ≡ all is_three (threes three.now) }
{
    for i in 0..three.len() / 3 {
        let at = i * 3;
        if row_of_three(names, three[at], three[at + 1], three[at + 2]).is_none() {
            return false;
        }
    }
    true
}

fn write_threes(one: &[u8], names: &[u8; 100], out: &mut [u8])
    requires names_value { names.now ≡ table }
    requires one_value { all is_one one.now ≡ true }
    requires one_in_bounds { length one.now * 3 ≤ length out.old }
    ensures { out.new ≡ over (each three_of one.now) out.old }
{
    for i in 0..one.len() {
        let row = row_of_one(names, one[i]).unwrap();
        let from = row * 4;
        let at = i * 3;
        out[at] = names[from + 1];
        out[at + 1] = names[from + 2];
        out[at + 2] = names[from + 3];
    }
}

fn write_ones(three: &[u8], names: &[u8; 100], out: &mut [u8])
    requires names_value { names.now ≡ table }
    requires three_len { length three.now % 3 ≡ 0 }
    requires three_value { all is_three (threes three.now) ≡ true }
    requires three_in_bounds { length three.now / 3 ≤ length out.old }
    ensures { out.new ≡ over (each one_of (threes three.now)) out.old }
{
    for i in 0..three.len() / 3 {
        let at = i * 3;
        let row = row_of_three(names, three[at], three[at + 1], three[at + 2]).unwrap();
        out[i] = names[row * 4];
    }
}

// The three-letter names of residues: 15 for an unknown residue, or too little room.
pub fn aa1_to_aa3(one: &[u8], out: &mut [u8]) -> Result<usize, Refusal>
    ensures value { told result ≡ written_of (three_letters one.now (length out.old)) }
    ensures out_after { out.new ≡ over (bytes_of (three_letters one.now (length out.old))) out.old }
{
    let names = name_table();
    if !are_ones(one, &names) {
        return Err(Refusal::Output);
    }
    if out.len() / 3 < one.len() {
        return Err(Refusal::Output);
    }
    write_threes(one, &names, out);
    Ok(one.len() * 3)
}

// The residues of three-letter names: 15 for an unknown name, a length not divisible by three, or too little room.
pub fn aa3_to_aa1(three: &[u8], out: &mut [u8]) -> Result<usize, Refusal>
    ensures value { told result ≡ written_of (one_letters three.now (length out.old)) }
    ensures out_after { out.new ≡ over (bytes_of (one_letters three.now (length out.old))) out.old }
{
    if three.len() % 3 != 0 {
        return Err(Refusal::Output);
    }
    let names = name_table();
    if !are_threes(three, &names) {
        return Err(Refusal::Output);
    }
    if out.len() < three.len() / 3 {
        return Err(Refusal::Output);
    }
    write_ones(three, &names, out);
    Ok(three.len() / 3)
}
