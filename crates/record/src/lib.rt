// "The record": what two proteins, R and A, differ in, its class, and the record of the two.
#![tactic(auto)]

ghost use Rattle.std.specs.Prelude.{◌≡◌, ◌≤◌};
ghost use Rattle.rules.specs.Record.{record_from};
ghost use Rattle.shares.specs.Shares.{Shares};

use changes::{byte_at, change_at};
pub use record_over::record_over;
use rules::Record;
use shares::{beginning_of, ending_of};

// The record of R and A, the first `ahead` residues and the last `behind` known to be shared; `number` is the one that a silent record has.
pub fn record_beside(
    r: &[u8],
    a: &[u8],
    flag: bool,
    number: usize,
    ahead: usize,
    behind: usize,
) -> Record
    requires le_number { 1 ≤ number }
    requires shares { Shares ahead behind r.now a.now }
    ensures { result ≡ record_from flag number r.now a.now }
{
    if a.len() == 0 {
        return Record::NoProtein;
    }
    let s = beginning_of(r, a, ahead, behind);
    if (s == r.len()) & (s == a.len()) {
        let residue = byte_at(r, number - 1);
        return Record::Silent { number, residue };
    }
    let n = ending_of(r, a, s, flag, behind);
    Record::Changed(change_at(r, a, flag, s, n))
}

// The record of R and A; `number` is the one that a silent record has.
pub fn record_from(r: &[u8], a: &[u8], flag: bool, number: usize) -> Record
    requires { 1 ≤ number }
    ensures { result ≡ record_from flag number r.now a.now }
{
    record_beside(r, a, flag, number, 0, 0)
}
