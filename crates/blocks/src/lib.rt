// Codons that a plan makes held to R in blocks: letters of what goes in, or letters behind it, which lie side by side.
#![tactic(auto)]

ghost use Rattle.std.specs.Prelude.{◌≡◌, true, ◌+◌, ◌*◌, ◌≤◌, ◌<◌, length, drop};
ghost use Rattle.rules.specs.Bytes.{all};
ghost use Rattle.rules.specs.Letters.{is_letter};
ghost use Rattle.rules.specs.Translation.{exception_list};
ghost use Rattle.rules.specs.Packed.{letters_by};
ghost use Rattle.transcript.specs.Carrying.{carried_by};
ghost use Rattle.altered.specs.Over.{Makes, Stretch};
ghost use Rattle.blocks.specs.Blocks.{Sized, ReadsAs, Unexcepted, Held};

use altered::write_stretch;
use edits::plans::Plan;
use excepted::next_exception;
use packed::same_by;
use rules::{Exceptions, Form};
use sequences::common_prefix_len;
use translation::{all_bases, write_translated};

// How many first residues are those that a block of letters reads as.
fn alike_read(block: &[u8], table: usize, own: &[u8]) -> usize
    requires block_value { all is_letter block.now ≡ true }
    requires block_len { length block.now ≡ length own.now * 3 }
    requires table_bound { (table < 3) × (length own.now ≤ 256) }
    ensures upper_bound { result ≤ length own.now }
    ensures each { ReadsAs table block.now own.now result }
{
    let n = own.len();
    let plain = all_bases(block);
    let mut residues = [0u8; 256];
    write_translated(block, table, plain, Exceptions::none(), &mut residues);
    common_prefix_len(&residues[..n], own)
}

// How many first residues of R's part `own`, whose codons begin at a place, the codons that a plan makes from there on read as. Where the letters
// are the reference's they aren't read.
pub fn alike_codons(
    letters: &[u8],
    form: Form,
    table: usize,
    plan: Plan,
    new: &[u8],
    at: usize,
    own: &[u8],
) -> usize
    requires makes { Makes plan (letters_by form letters.now) new.now }
    requires stretch { Stretch plan at (length own.now * 3) (length (carried_by plan (letters_by form letters.now) new.now)) }
    requires held { Held table (letters_by form letters.now) at own.now }
    ensures upper_bound { result ≤ length own.now }
    ensures each { ReadsAs table (drop at (carried_by plan (letters_by form letters.now) new.now)) own.now result }
{
    let n = own.len() * 3;
    let mut room = [0u8; 768];
    let block = &mut room[..n];
    write_stretch(letters, form, plan, new, at, block);
    if same_by(letters, form, at, at + n, block) {
        return own.len();
    }
    alike_read(block, table, own)
}

// How many codons from a place on, and at most `most`, lie in what goes in or behind it. None does before it, or across its end.
pub fn stretch_codons(plan: Plan, at: usize, most: usize) -> usize
    requires { plan.from + plan.kept < 8589934592 }
    ensures { Sized plan at most result }
{
    if at < plan.from {
        return 0;
    }
    let back = plan.from + plan.kept;
    if at < back {
        return ((back - at) / 3).min(most);
    }
    most
}

// How many of n codons behind the first k come before one with an exception, of either kind.
pub fn clear_codons(e: Exceptions, moved: Exceptions, k: usize, n: usize) -> usize
    requires count_bound { (e.count ≤ 16) × (moved.count ≤ 16) }
    requires n_bound { k + n < 4294967296 }
    ensures upper_bound { result ≤ n }
    ensures own { Unexcepted (exception_list e) k result }
    ensures moved { Unexcepted (exception_list moved) k result }
{
    let past = k + n + 1;
    let own = next_exception(e, k + 1, past);
    let other = next_exception(moved, k + 1, past);
    n.min(own.min(other) - (k + 1))
}
