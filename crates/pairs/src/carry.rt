// Two plans carried out: the transcript of both, in five parts, and its protein. Nothing is refused here but for want of room.
ghost use Rattle.std.specs.Prelude.{◌≡◌, ◌++◌, ◌+◌, ◌-◌, ◌<◌, ◌≤◌, length, drop};
ghost use Rattle.rules.specs.Bytes.{over};
ghost use Rattle.rules.specs.Altered.{part};
ghost use Rattle.rules.specs.Packed.{letters_by};
ghost use Rattle.rules.specs.Pair.{Pairs};
ghost use Rattle.rules.specs.Refusals.{told};
ghost use Rattle.rules.proofs.Pairs.{five_parts};
ghost use Rattle.edits.specs.Plans.{goes_in};
ghost use Rattle.pairs.specs.Carrying.{swap_of, both_by, protein_in, pair_room_of, carried_outcome, Behind, InRow, Codes, Goes};

use buffers::pair_room_refusal;
use edits::plans::Plan;
use packed::{copy_letters, size_of};
use reference::Known;
use rules::{Exceptions, Form, PairReport, Refusal};
use transcript::{write_put, write_rest};
use translation::all_bases;
use walks::write_through_stop;

// Writes the letters from `to` to the plan behind, what goes in there, and the tail, from the start of the rest of the buffer.
fn write_behind(
    letters: &[u8],
    form: Form,
    to: usize,
    behind: Plan,
    other: &[u8],
    rest: &mut [u8],
) -> usize
    requires { Behind to behind (letters_by form letters.now) other.now (length rest.old) }
    ensures value { result ≡ (behind.from - to) + (behind.kept + (length (letters_by form letters.now) - behind.to)) }
    ensures rest_after { rest.new ≡ over (part to behind.from (letters_by form letters.now) ++ (goes_in behind (letters_by form letters.now) other.now ++ drop behind.to (letters_by form letters.now))) rest.old }
{
    let from = behind.from;
    let between = from - to;
    copy_letters(letters, form, to, from, rest);
    between + write_rest(letters, form, behind, other, &mut rest[between..])
}

// The same with what goes in by the plan ahead before it.
fn write_from(
    letters: &[u8],
    form: Form,
    ahead: Plan,
    new: &[u8],
    behind: Plan,
    other: &[u8],
    rest: &mut [u8],
) -> usize
    requires { InRow ahead behind (letters_by form letters.now) new.now other.now (ahead.from + length rest.old) }
    ensures value { result ≡ ahead.kept + ((behind.from - ahead.to) + (behind.kept + (length (letters_by form letters.now) - behind.to))) }
    ensures rest_after { rest.new ≡ over (goes_in ahead (letters_by form letters.now) new.now ++ (part ahead.to behind.from (letters_by form letters.now) ++ (goes_in behind (letters_by form letters.now) other.now ++ drop behind.to (letters_by form letters.now)))) rest.old }
{
    let kept = write_put(letters, form, ahead, new, rest);
    let to = ahead.to;
    kept + write_behind(letters, form, to, behind, other, &mut rest[kept..])
}

// Writes the five parts from the buffer's start: the letters ahead of both first.
fn write_parts(
    letters: &[u8],
    form: Form,
    ahead: Plan,
    new: &[u8],
    behind: Plan,
    other: &[u8],
    transcript: &mut [u8],
) -> usize
    requires { InRow ahead behind (letters_by form letters.now) new.now other.now (length transcript.old) }
    ensures value { result ≡ length (five_parts (swap_of ahead (letters_by form letters.now) new.now) (swap_of behind (letters_by form letters.now) other.now) (letters_by form letters.now)) }
    ensures transcript_after { transcript.new ≡ over (five_parts (swap_of ahead (letters_by form letters.now) new.now) (swap_of behind (letters_by form letters.now) other.now) (letters_by form letters.now)) transcript.old }
{
    let from = ahead.from;
    copy_letters(letters, form, 0, from, transcript);
    from + write_from(
        letters,
        form,
        ahead,
        new,
        behind,
        other,
        &mut transcript[from..],
    )
}

// Writes the transcript of both: whichever lies ahead goes first.
fn write_both(
    letters: &[u8],
    form: Form,
    first: Plan,
    new: &[u8],
    second: Plan,
    other: &[u8],
    transcript: &mut [u8],
) -> usize
    requires first_ahead { first.to < second.from → InRow first second (letters_by form letters.now) new.now other.now (length transcript.old) }
    requires second_ahead { second.from ≤ first.to → InRow second first (letters_by form letters.now) other.now new.now (length transcript.old) }
    ensures value { result ≡ length (both_by first second (letters_by form letters.now) new.now other.now) }
    ensures transcript_after { transcript.new ≡ over (both_by first second (letters_by form letters.now) new.now other.now) transcript.old }
{
    if first.to < second.from {
        return write_parts(letters, form, first, new, second, other, transcript);
    }
    write_parts(letters, form, second, other, first, new, transcript)
}

// Writes the protein of a transcript, read without exceptions, through its first stop.
fn write_protein(
    known: Known,
    new: &[u8],
    other: &[u8],
    transcript: &[u8],
    altered: &mut [u8],
) -> usize
    requires { Codes known new.now other.now transcript.now altered.old }
    ensures value { result ≡ length (protein_in known.cds transcript.now) }
    ensures altered_after { altered.new ≡ over (protein_in known.cds transcript.now) altered.old }
{
    let c = known.cds;
    let first = c.cs - 1;
    let plain = known.plain & all_bases(new) & all_bases(other);
    let walked = write_through_stop(
        &transcript[first..],
        c.table,
        plain,
        Exceptions::none(),
        altered,
    );
    walked.residues
}

// 11, 12, or the transcript of both and its protein, each written from its buffer's start.
pub(crate) fn carry_pair(
    letters: &[u8],
    known: Known,
    first: Plan,
    new: &[u8],
    second: Plan,
    other: &[u8],
    transcript: &mut [u8],
    altered: &mut [u8],
) -> Result<PairReport, Refusal>
    requires { Goes (letters_by known.form letters.now) known first second new.now other.now }
    ensures { Pairs
        (carried_outcome known.cds first second (letters_by known.form letters.now) new.now other.now (pair_room_of transcript.old altered.old))
        (told result) transcript.old transcript.new altered.old altered.new }
{
    let form = known.form;
    let length = first.length + second.length - size_of(letters, form);
    pair_room_refusal(known.cds, length, transcript.len(), altered.len())?;
    let n = write_both(letters, form, first, new, second, other, transcript);
    let residues = write_protein(known, new, other, &transcript[..n], altered);
    Ok(PairReport {
        transcript: n,
        altered: residues,
    })
}
