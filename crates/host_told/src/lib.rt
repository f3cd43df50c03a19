// The numbers that a host gets: lengths, and the values of each case of an answer.
#![tactic(auto)]

ghost use Rattle.std.specs.Prelude.{◌≡◌};
ghost use Rattle.rules.specs.Bytes.{given};
ghost use Rattle.rules.specs.Refusals.{told};
ghost use Rattle.rules.specs.Values.{class_number, told_by};
ghost use Rattle.host_told.specs.Told.{length_of, alone_of, told_of, answer_of, checked_of, paired_of, transcribed_of};

use altseq::Transcribed;
use rules::{Class, PairReport, Record, Refusal, Report, Verdict};

// A refusal's number and 0, or 0 and the bytes written from the buffer's start.
#[repr(C)]
#[derive(Clone, Copy)]
pub struct GarumbottLength {
    pub refusal: u64,
    pub len: u64,
}

// The papers' number and values for each case of an answer.
#[repr(C)]
#[derive(Clone, Copy)]
pub struct GarumbottAnswer {
    pub answer: u64,
    pub refusal: u64,
    pub frameshift: u64,
    pub transcript_len: u64,
    pub reference_len: u64,
    pub altered_len: u64,
    pub change: u64,
    pub number: u64,
    pub deleted_at: u64,
    pub deleted_len: u64,
    pub inserted_at: u64,
    pub inserted_len: u64,
    pub first: u64,
    pub codons: u64,
}

// Document 02's values for each case of a checked record.
#[repr(C)]
#[derive(Clone, Copy)]
pub struct GarumbottChecked {
    pub refusal: u64,
    pub replays: u64,
    pub shortest: u64,
    pub transcript_len: u64,
    pub reference_len: u64,
    pub altered_len: u64,
}

// Document 02's values for each case of a pair.
#[repr(C)]
#[derive(Clone, Copy)]
pub struct GarumbottPaired {
    pub refusal: u64,
    pub transcript_len: u64,
    pub altered_len: u64,
}

// The answer of a function that fills one buffer.
impl From<Result<usize, Refusal>> for GarumbottLength {
    ghost from_gives = { λ written length. length ≡ length_of (told written) };

    fn from(written: Result<usize, Refusal>) -> GarumbottLength {
        match written {
            Ok(n) => GarumbottLength {
                refusal: 0,
                len: n as u64,
            },
            Err(refusal) => GarumbottLength {
                refusal: refusal.number() as u64,
                len: 0,
            },
        }
    }
}

// An answer's number, a refusal's number, and nothing else.
pub fn alone(answer: u64, refusal: u64) -> GarumbottAnswer
    ensures { result ≡ alone_of answer refusal }
{
    GarumbottAnswer {
        answer,
        refusal,
        frameshift: 0,
        transcript_len: 0,
        reference_len: 0,
        altered_len: 0,
        change: 0,
        number: 0,
        deleted_at: 0,
        deleted_len: 0,
        inserted_at: 0,
        inserted_len: 0,
        first: 0,
        codons: 0,
    }
}

fn class_number(class: Class) -> u64
    ensures { result ≡ class_number class }
{
    class as u64
}

// What a record tells.
fn told_by(found: Record) -> GarumbottAnswer
    ensures { result ≡ told_of (told_by found) }
{
    match found {
        Record::Unknown => alone(1, 0),
        Record::NoProtein => alone(2, 0),
        Record::Silent { number, residue: _ } => {
            let at = number.saturating_sub(1) as u64;
            GarumbottAnswer {
                number: number as u64,
                deleted_at: at,
                deleted_len: 1,
                inserted_at: at,
                inserted_len: 1,
                ..alone(3, 0)
            }
        }
        Record::Changed(change) => GarumbottAnswer {
            change: class_number(change.class),
            number: change.number as u64,
            deleted_at: change.deleted.at as u64,
            deleted_len: change.deleted.len as u64,
            inserted_at: change.inserted.at as u64,
            inserted_len: change.inserted.len as u64,
            first: change.first as u64,
            ..alone(4, 0)
        },
    }
}

// A report's record, flag, lengths and codons looked up.
fn reported(report: Report) -> GarumbottAnswer
    ensures { result ≡ answer_of (given report) }
{
    GarumbottAnswer {
        frameshift: report.frameshift as u64,
        transcript_len: report.transcript as u64,
        reference_len: report.reference as u64,
        altered_len: report.altered as u64,
        codons: report.codons as u64,
        ..told_by(report.found)
    }
}

impl From<Result<Report, Refusal>> for GarumbottAnswer {
    ghost from_gives = { λ answer numbers. numbers ≡ answer_of (told answer) };

    fn from(answer: Result<Report, Refusal>) -> GarumbottAnswer {
        match answer {
            Ok(report) => reported(report),
            Err(refusal) => alone(0, refusal.number() as u64),
        }
    }
}

// The answer where the altered transcript alone is asked for: 4 where it was written.
impl From<Result<Option<Transcribed>, Refusal>> for GarumbottAnswer {
    ghost from_gives = { λ answer numbers. numbers ≡ transcribed_of (told answer) };

    fn from(answer: Result<Option<Transcribed>, Refusal>) -> GarumbottAnswer {
        match answer {
            Ok(Some(written)) => GarumbottAnswer {
                frameshift: written.frameshift as u64,
                transcript_len: written.length as u64,
                ..alone(4, 0)
            },
            Ok(None) => alone(1, 0),
            Err(refusal) => alone(0, refusal.number() as u64),
        }
    }
}

impl From<Result<Verdict, Refusal>> for GarumbottChecked {
    ghost from_gives = { λ answer numbers. numbers ≡ checked_of (told answer) };

    fn from(answer: Result<Verdict, Refusal>) -> GarumbottChecked {
        match answer {
            Ok(verdict) => GarumbottChecked {
                refusal: 0,
                replays: verdict.replays as u64,
                shortest: verdict.shortest as u64,
                transcript_len: verdict.transcript as u64,
                reference_len: verdict.reference as u64,
                altered_len: verdict.altered as u64,
            },
            Err(refusal) => GarumbottChecked {
                refusal: refusal.number() as u64,
                replays: 0,
                shortest: 0,
                transcript_len: 0,
                reference_len: 0,
                altered_len: 0,
            },
        }
    }
}

impl From<Result<PairReport, Refusal>> for GarumbottPaired {
    ghost from_gives = { λ answer numbers. numbers ≡ paired_of (told answer) };

    fn from(answer: Result<PairReport, Refusal>) -> GarumbottPaired {
        match answer {
            Ok(pair) => GarumbottPaired {
                refusal: 0,
                transcript_len: pair.transcript as u64,
                altered_len: pair.altered as u64,
            },
            Err(refusal) => GarumbottPaired {
                refusal: refusal.number() as u64,
                transcript_len: 0,
                altered_len: 0,
            },
        }
    }
}
