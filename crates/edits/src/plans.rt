// "Positions and edits": what an accepted edit does, in numbers.
ghost use Rattle.std.specs.Prelude.{ℕ, ◌+◌, ◌-◌, ◌<◌, ◌≤◌, ◌≡◌, true, List, length};
ghost use Rattle.rules.specs.Bytes.{all};
ghost use Rattle.rules.specs.Letters.{is_letter};
ghost use Rattle.rules.specs.Edit.{Asked};
ghost use Rattle.rules.specs.Altered.{part, frameshift};
ghost use Rattle.rules.specs.Record.{silent_number};
ghost use Rattle.rules.specs.declared.Cds.{Cds};
ghost use Rattle.rules.specs.Packed.{letters_by};
ghost use Rattle.rules.specs.Views.{bare, asked};
ghost use Rattle.packed.specs.Halves.{InLetters};
ghost use Rattle.reference.specs.Known.{Checks};
ghost use Rattle.edits.specs.Plans.{plan_of, Planned, Replaces, Goes, Inserts, Keeps};

pub use buffers::room_refusal;
use cuts::{Cut, insert_stop_seq_end};
use packed::{same_by, size_of};
use reference::Known;
use rules::{Cds, Edit, Form, Kind};
use spans::{Range, setup_incorporate, silent_number};
use translation::all_bases;

// Where what goes in comes from: the new bases, a copy of start..end, or its reverse complement.
#[derive(Clone, Copy)]
pub enum Source {
    New,
    Copy,
    Turned,
}

// The first `kept` bytes of the source go in for the bases from..to, which makes `length` bases. `shift` is the frameshift flag, `stopped`
// whether the stop cut finds a stop, and `number` that of a silent record.
#[derive(Clone, Copy)]
pub struct Plan {
    pub source: Source,
    pub start: usize,
    pub end: usize,
    pub from: usize,
    pub to: usize,
    pub kept: usize,
    pub length: usize,
    pub shift: bool,
    pub stopped: bool,
    pub number: usize,
}

// The flag where start..end give way to the new bases: the net change is not divisible by 3 or start < ce < end, unless they are put back.
fn is_shift(letters: &[u8], form: Form, c: Cds, range: Range, new: &[u8]) -> bool
    requires { InLetters form letters.now range.start range.end }
    ensures { (e : Asked) → Replaces (bare (letters_by form letters.now) c) e range new.now → result ≡ frameshift (bare (letters_by form letters.now) c) e }
{
    let start = range.start;
    let end = range.end;
    let uneven = new.len() % 3 != (end - start) % 3;
    let leaves = (start < c.ce) & (c.ce < end);
    (uneven | leaves) && !same_by(letters, form, start, end, new)
}

// Deletion, delins and substitution. `number` is a silent record's, here and below.
fn replace(letters: &[u8], form: Form, c: Cds, range: Range, new: &[u8], number: usize) -> Plan
    requires in_letters { InLetters form letters.now range.start range.end }
    requires letters_len_bound { (length (letters_by form letters.now) < 4294967296) × (length new.now < 4294967296) }
    ensures { (e : Asked) → Replaces (bare (letters_by form letters.now) c) e range new.now → number ≡ silent_number (bare (letters_by form letters.now) c) e → result ≡ plan_of (bare (letters_by form letters.now) c) e }
{
    let start = range.start;
    let end = range.end;
    Plan {
        source: Source::New,
        start,
        end,
        from: start,
        to: end,
        kept: new.len(),
        length: size_of(letters, form) - (end - start) + new.len(),
        shift: is_shift(letters, form, c, range, new),
        stopped: false,
        number,
    }
}

// Insertion and duplication, where the transcript has `size` bases: `put` bases go in at an index, up to their first stop.
fn insert(
    size: usize,
    range: Range,
    source: Source,
    at: usize,
    put: usize,
    cut: Cut,
    number: usize,
) -> Plan
    requires { (size < 4294967296) × (cut.kept < 4294967296) }
    ensures { (s bases : List ℕ) (c : Cds) (e : Asked) → Goes size put cut s c at bases → Inserts (bare s c) e range source at bases → number ≡ silent_number (bare s c) e → result ≡ plan_of (bare s c) e }
{
    let found = cut.found;
    let kept = cut.kept;
    let uneven = put % 3 != 0;
    Plan {
        source,
        start: range.start,
        end: range.end,
        from: at,
        to: at,
        kept,
        length: size + kept,
        shift: uneven & !found,
        stopped: found,
        number,
    }
}

// Insertion: the new bases.
fn insert_new(size: usize, c: Cds, range: Range, new: &[u8], number: usize) -> Plan
    requires le_cs { (1 ≤ c.cs) × (c.cs - 1 ≤ range.start) }
    requires size_bound { (size < 4294967296) × (range.start < 4294967296) × (length new.now < 4294967296) }
    requires table_bound { (c.table < 3) × (all is_letter new.now ≡ true) }
    ensures { (s : List ℕ) (e : Asked) → length s ≡ size → Inserts (bare s c) e range Source.New (range.start + 1) new.now → number ≡ silent_number (bare s c) e → result ≡ plan_of (bare s c) e }
{
    let at = range.start + 1;
    let frame = (at - (c.cs - 1)) % 3;
    let form = Form::Bytes;
    let cut = insert_stop_seq_end(new, form, 0, new.len(), frame, c.table, all_bases(new));
    insert(size, range, Source::New, at, new.len(), cut, number)
}

// Duplication: a copy of start..end, at end.
fn insert_copy(letters: &[u8], known: Known, range: Range, number: usize) -> Plan
    requires checks { Checks (letters_by known.form letters.now) known }
    requires in_letters { InLetters known.form letters.now range.start range.end }
    requires cs_bound { known.cds.cs - 1 ≤ range.end }
    ensures { (e : Asked) → Inserts (bare (letters_by known.form letters.now) known.cds) e range Source.Copy range.end (part range.start range.end (letters_by known.form letters.now)) → number ≡ silent_number (bare (letters_by known.form letters.now) known.cds) e → result ≡ plan_of (bare (letters_by known.form letters.now) known.cds) e }
{
    let c = known.cds;
    let form = known.form;
    let start = range.start;
    let end = range.end;
    let frame = (end - (c.cs - 1)) % 3;
    let cut = insert_stop_seq_end(letters, form, start, end, frame, c.table, known.plain);
    let size = size_of(letters, form);
    insert(size, range, Source::Copy, end, end - start, cut, number)
}

// Inversion and identity, and an unknown kind: as many bases as there were.
fn keep_length(size: usize, range: Range, source: Source, number: usize) -> Plan
    requires { (range.start ≤ range.end) × (range.end ≤ size) }
    ensures { (s : List ℕ) (c : Cds) (e : Asked) → length s ≡ size → Keeps (bare s c) e range source → number ≡ silent_number (bare s c) e → result ≡ plan_of (bare s c) e }
{
    let start = range.start;
    let end = range.end;
    Plan {
        source,
        start,
        end,
        from: start,
        to: end,
        kept: end - start,
        length: size,
        shift: false,
        stopped: false,
        number,
    }
}

// What an accepted edit does.
pub fn plan_of(letters: &[u8], known: Known, edit: Edit, new: &[u8]) -> Plan
    requires checks { Checks (letters_by known.form letters.now) known }
    requires planned { Planned (bare (letters_by known.form letters.now) known.cds) (asked edit new.now) }
    ensures { result ≡ plan_of (bare (letters_by known.form letters.now) known.cds) (asked edit new.now) }
{
    let c = known.cds;
    let form = known.form;
    let size = size_of(letters, form);
    let number = silent_number(known.residues, edit);
    let range = setup_incorporate(size, c, edit);
    match edit.kind {
        Kind::Substitution | Kind::Deletion | Kind::Delins => {
            replace(letters, form, c, range, new, number)
        }
        Kind::Insertion => insert_new(size, c, range, new, number),
        Kind::Duplication => insert_copy(letters, known, range, number),
        Kind::Inversion => keep_length(size, range, Source::Turned, number),
        Kind::Identity | Kind::Other => keep_length(size, range, Source::Copy, number),
    }
}
