// The beginning and the ending that two proteins share, where a part of each is known to be shared.
#![tactic(auto)]

ghost use Rattle.std.specs.Prelude.{◌≡◌, ◌≤◌, length};
ghost use Rattle.rules.specs.Trims.{common_prefix};
ghost use Rattle.rules.specs.Record.{ending};
ghost use Rattle.shares.specs.Shares.{Shares};

use sequences::{common_prefix_len, common_suffix_len};

// How many first residues R and A share, the first `ahead` and the last `behind` known to be shared. A known residue is looked at only where it
// stands beside another than its own.
pub fn beginning_of(r: &[u8], a: &[u8], ahead: usize, behind: usize) -> usize
    requires { Shares ahead behind r.now a.now }
    ensures { result ≡ common_prefix r.now a.now }
{
    let r_end = r.len() - behind;
    let a_end = a.len() - behind;
    let s = ahead + common_prefix_len(&r[ahead..r_end], &a[ahead..a_end]);
    if (s < r_end) & (s < a_end) {
        return s;
    }
    if r_end == a_end {
        return r.len();
    }
    s + common_prefix_len(&r[s..], &a[s..])
}

// The residues of the longest ending that R and A share behind the first s, none with the flag. The last `behind` are known to be shared.
pub fn ending_of(r: &[u8], a: &[u8], s: usize, flag: bool, behind: usize) -> usize
    requires s_in_bounds { (s ≤ length r.now) × (s ≤ length a.now) }
    requires shares { Shares 0 behind r.now a.now }
    ensures { result ≡ ending flag s r.now a.now }
{
    if flag {
        return 0;
    }
    let known = behind.min(r.len().min(a.len()) - s);
    let r_end = r.len() - known;
    let a_end = a.len() - known;
    known + common_suffix_len(&r[s..r_end], &a[s..a_end])
}
