// An A that isn't written out, the first `head` residues of R, residues that are lent, and R from residue `back` on: what it shares with R, and its residues.
#![tactic(auto)]

ghost use Rattle.std.specs.Prelude.{◌≡◌, ◌≤◌, length, get_or};
ghost use Rattle.rules.specs.Trims.{common_prefix};
ghost use Rattle.rules.specs.Record.{ending};
ghost use Rattle.joined.specs.Joined.{joined, Joins};

use changes::byte_at;
use sequences::{common_prefix_len, common_suffix_len};

// How many first residues R and A share. R is compared with itself only where it stands beside other residues than its own.
pub fn beginning_over(r: &[u8], m: &[u8], head: usize, back: usize) -> usize
    requires { Joins head back r.now m.now }
    ensures { result ≡ common_prefix r.now (joined head back r.now m.now) }
{
    let k = common_prefix_len(&r[head..], m);
    let s = head + k;
    if k < m.len() {
        return s;
    }
    if s == back {
        return r.len();
    }
    s + common_prefix_len(&r[s..], &r[back..])
}

// The residues of the longest ending that R and A share behind the first s, none with the flag. Those of R behind `back` are A's last.
pub fn ending_over(r: &[u8], m: &[u8], head: usize, back: usize, s: usize, flag: bool) -> usize
    requires joins { Joins head back r.now m.now }
    requires s_value { s ≡ common_prefix r.now (joined head back r.now m.now) }
    ensures { result ≡ ending flag s r.now (joined head back r.now m.now) }
{
    if flag {
        return 0;
    }
    let behind = r.len() - back;
    let most = r.len().min(head + m.len() + behind) - s;
    if most < behind {
        return most;
    }
    let from = s - head;
    behind + common_suffix_len(&r[s..back], &m[from..])
}

// The residue of A at i, counted from 0, or 0 past the end.
pub fn residue_over(r: &[u8], m: &[u8], head: usize, back: usize, i: usize) -> u8
    requires joins { Joins head back r.now m.now }
    requires head_le_i { (head ≤ i) × (i ≤ length (joined head back r.now m.now)) }
    ensures { result ≡ get_or (joined head back r.now m.now) i 0 }
{
    let at = i - head;
    if at < m.len() {
        return m[at];
    }
    byte_at(r, back + (at - m.len()))
}
