// What an edit leaves of R: the first codon that it may change, and which codon of R one behind it is.
#![tactic(auto)]

ghost use Rattle.std.specs.Prelude.{◌+◌, ◌*◌, ◌≤◌, IfSome};
ghost use Rattle.sources.specs.Sources.{Placed, Reused};

use edits::plans::Plan;

// The first codon that the edit may change: the first that isn't wholly before it, and at most the last of R.
pub fn first_changed(plan: Plan, first: usize, residues: usize) -> usize
    requires { (first ≤ plan.from) × (1 ≤ residues) }
    ensures result_bound { result + 1 ≤ residues }
    ensures before { first + result * 3 ≤ plan.from }
{
    ((plan.from - first) / 3).min(residues - 1)
}

// Which codon of R codon k is, counted from 0: behind the edit, in the reference's frame, and without exceptions or in an edit that keeps the
// length, so that each exception behind it stays. R has so many residues.
pub fn source_of(plan: Plan, first: usize, count: usize, residues: usize, k: usize) -> Option<usize>
    requires { Placed plan first k }
    ensures { IfSome result (Reused plan first count residues k) }
{
    let at = first + k * 3;
    let back = plan.from + plan.kept;
    if ((count != 0) & (back != plan.to)) | (at < back) {
        return None;
    }
    let old = at - back + (plan.to - first);
    if (old % 3 != 0) | (residues <= old / 3) {
        return None;
    }
    Some(old / 3)
}
