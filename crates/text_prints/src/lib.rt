// "Text program": the lines that answers are printed as. Each function writes from the start of the part of the output that it is lent, and
// answers how many bytes it wrote.
#![tactic(auto)]

mod words;

ghost use Rattle.std.specs.Prelude.{◌≡◌, [], ◌∷◌, ◌++◌, ◌≤◌, ◌<◌, length};
ghost use Rattle.rules.specs.Bytes.{bytes, over};
ghost use Rattle.rules.specs.Record.{part_of};
ghost use Rattle.rules.specs.Refusals.{refusal_number};
ghost use Rattle.rules.specs.Run.{refused_line, change_line, record_line, line_feed};
ghost use Rattle.text_prints.specs.Words.{parts_line};

use rules::{Change, Part, Record, Refusal};
use words::{
    close_line, write_first, write_refused, write_silent, write_spaced, write_spaced_decimal,
};

// A part of a protein; what lies behind its end isn't there.
fn part_of(p: Part, protein: &[u8]) -> &[u8]
    ensures { result.now ≡ part_of p protein.now }
{
    let rest = &protein[p.at.min(protein.len())..];
    &rest[..p.len.min(rest.len())]
}

// Deleted and inserted residues, each behind a space, and the first residue of a copy.
fn write_parts(deleted: &[u8], inserted: &[u8], first: usize, out: &mut [u8]) -> usize
    requires { length (parts_line deleted.now inserted.now first) ≤ length out.old }
    ensures value { result ≡ length (parts_line deleted.now inserted.now first) }
    ensures out_after { out.new ≡ over (parts_line deleted.now inserted.now first) out.old }
{
    let n = write_spaced(deleted, out);
    let m = n + write_spaced(inserted, &mut out[n..]);
    m + write_first(first, &mut out[m..])
}

fn write_change(c: Change, r: &[u8], a: &[u8], out: &mut [u8]) -> usize
    requires { length (change_line c r.now a.now) ≤ length out.old }
    ensures value { result ≡ length (change_line c r.now a.now) }
    ensures out_after { out.new ≡ over (change_line c r.now a.now) out.old }
{
    let n = bytewise::copy(c.class.name(), out);
    let m = n + write_spaced_decimal(c.number, &mut out[n..]);
    m + write_parts(
        part_of(c.deleted, r),
        part_of(c.inserted, a),
        c.first,
        &mut out[m..],
    )
}

fn write_record(found: Record, r: &[u8], a: &[u8], out: &mut [u8]) -> usize
    requires { length (record_line found r.now a.now) ≤ length out.old }
    ensures value { result ≡ length (record_line found r.now a.now) }
    ensures out_after { out.new ≡ over (record_line found r.now a.now) out.old }
{
    match found {
        Record::Unknown => bytewise::copy(b"unknown", out),
        Record::NoProtein => bytewise::copy(b"no-protein", out),
        Record::Silent { number, residue } => write_silent(number, residue, out),
        Record::Changed(c) => write_change(c, r, a, out),
    }
}

// The line of a refusal's number.
pub fn print_refused(n: usize, out: &mut [u8]) -> usize
    requires { length (refused_line n) < length out.old }
    ensures value { result ≡ length (refused_line n ++ (line_feed ∷ [])) }
    ensures out_after { out.new ≡ over (refused_line n ++ (line_feed ∷ [])) out.old }
{
    let size = write_refused(n, out);
    close_line(size, out)
}

// The line of a refusal.
pub fn print_refusal(refusal: Refusal, out: &mut [u8]) -> usize
    requires { length (refused_line (refusal_number refusal)) < length out.old }
    ensures value { result ≡ length (refused_line (refusal_number refusal) ++ (line_feed ∷ [])) }
    ensures out_after { out.new ≡ over (refused_line (refusal_number refusal) ++ (line_feed ∷ [])) out.old }
{
    print_refused(refusal.number(), out)
}

// The line of an accepted reference, with its protein R.
pub fn print_reference(r: &[u8], out: &mut [u8]) -> usize
    requires { length (bytes "reference " ++ r.now) < length out.old }
    ensures value { result ≡ length ((bytes "reference " ++ r.now) ++ (line_feed ∷ [])) }
    ensures out_after { out.new ≡ over ((bytes "reference " ++ r.now) ++ (line_feed ∷ [])) out.old }
{
    let n = bytewise::copy(b"reference ", out);
    let size = n + bytewise::copy(r, &mut out[n..]);
    close_line(size, out)
}

// The line of a record of the proteins R and A.
pub fn print_record(found: Record, r: &[u8], a: &[u8], out: &mut [u8]) -> usize
    requires { length (record_line found r.now a.now) < length out.old }
    ensures value { result ≡ length (record_line found r.now a.now ++ (line_feed ∷ [])) }
    ensures out_after { out.new ≡ over (record_line found r.now a.now ++ (line_feed ∷ [])) out.old }
{
    let size = write_record(found, r, a, out);
    close_line(size, out)
}
