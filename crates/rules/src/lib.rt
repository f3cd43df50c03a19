// The plain types that references, edits and answers are made of. The definitions of documents 01 and 02 over them stand in specs/.
#![tactic(auto)]

ghost use Rattle.std.specs.Prelude.{◌≡◌};
ghost use Rattle.rules.specs.Translation.{no_exceptions};
ghost use Rattle.rules.specs.Refusals.{refusal_number};
ghost use Rattle.rules.specs.Values.{kind_at};
ghost use Rattle.rules.specs.Run.{class_name};

// What an edit does. `Other` is any kind but the seven.
#[derive(Clone, Copy)]
pub enum Kind {
    Substitution,
    Deletion,
    Delins,
    Insertion,
    Duplication,
    Inversion,
    Identity,
    Other,
}

impl From<u64> for Kind {
    ghost from_gives = { λ n kind. kind ≡ kind_at n };

    // By a host's numbers.
    fn from(n: u64) -> Kind {
        match n {
            1 => Kind::Substitution,
            2 => Kind::Deletion,
            3 => Kind::Delins,
            4 => Kind::Insertion,
            5 => Kind::Duplication,
            6 => Kind::Inversion,
            7 => Kind::Identity,
            _ => Kind::Other,
        }
    }
}

// `7` is Plus(7), `-2` is Minus(2), `*3` is Star(3).
#[derive(Clone, Copy)]
pub enum Position {
    Plus(usize),
    Minus(usize),
    Star(usize),
}

// An edit without its new bases, which are lent beside it.
#[derive(Clone, Copy)]
pub struct Edit {
    pub kind: Kind,
    pub start: Position,
    pub end: Position,
}

// A codon's number, from 1, and the residue that replaces the table's there. Four bytes hold every codon of a transcript; a call hands its
// exceptions on often, so they are kept small.
#[derive(Clone, Copy)]
pub struct Exception {
    pub codon: u32,
    pub residue: u8,
}

// The first `count` of `all`.
#[derive(Clone, Copy)]
pub struct Exceptions {
    pub all: [Exception; 16],
    pub count: usize,
}

impl Exceptions {
    pub fn none() -> Exceptions
        ensures { result ≡ no_exceptions }
    {
        let none = Exception {
            codon: 0,
            residue: 0,
        };
        Exceptions {
            all: [none; 16],
            count: 0,
        }
    }
}

// The bounds and the table of a reference, and how its CDS ends: 0 at a stop, 1 without one, 2 in one or two bases of a codon, any other
// unknown. Its letters and its exceptions are lent beside them.
#[derive(Clone, Copy)]
pub struct Cds {
    pub cs: usize,
    pub ce: usize,
    pub table: usize,
    pub end: usize,
}

// How a reference's letters are lent: a byte each, or packed two to a byte, so many letters in all.
#[derive(Clone, Copy)]
pub enum Form {
    Bytes,
    Packed(usize),
}

// What is asked of a reference: its letters' form, its numbers and its exceptions, and an edit. The letters and the new bases are lent beside them.
#[derive(Clone, Copy)]
pub struct Question {
    pub form: Form,
    pub cds: Cds,
    pub e: Exceptions,
    pub edit: Edit,
}

// The longest transcript that the library takes, the residues of its protein, and the most new bases of an edit.
pub const LONGEST: usize = 131072;

pub const LONGEST_PROTEIN: usize = 43691;

pub const MOST: usize = 4096;

// The longest transcripts whose proteins go to rooms smaller than that, and those rooms: a call clears the room that it takes.
pub const SHORT: usize = 16384;

pub const SHORT_PROTEIN: usize = 5462;

pub const SMALL: usize = 4096;

pub const SMALL_PROTEIN: usize = 1366;

// The longest transcript, and the most new bases.
#[derive(Clone, Copy)]
pub struct Limits {
    pub longest: usize,
    pub most: usize,
}

// Why a call is refused, by the papers' numbers. The header says more of each.
#[derive(Clone, Copy)]
pub enum Refusal {
    Length = 1,
    Letter = 2,
    Bounds = 3,
    Table = 4,
    Exceptions = 5,
    LastCodon = 6,
    Position = 7,
    Order = 8,
    OutOfCds = 9,
    Bases = 10,
    TranscriptRoom = 11,
    ProteinRoom = 12,
    Codon = 14,
    Output = 15,
    Cut = 20,
    Tag = 21,
    Missing = 22,
    Field = 23,
    StoredRoom = 24,
    Parts = 25,
    NotChanged = 26,
    Proposal = 27,
    End = 28,
    JoinedRoom = 29,
    Line = 30,
    ProfileLetter = 40,
    ProfileEdit = 41,
    ProfileFrame = 42,
    NamedBase = 43,
    List = 50,
    Touching = 51,
    PairUnknown = 52,
    PairStop = 53,
    Version = 60,
    SettingsField = 61,
    Setting = 62,
    SettingsRoom = 63,
}

impl Refusal {
    // The number that a host and a line of the text program show.
    pub fn number(self) -> usize
        ensures { result ≡ refusal_number self }
    {
        self as usize
    }
}

// The classes of a change, by the papers' numbers.
#[derive(Clone, Copy)]
pub enum Class {
    StartLost = 1,
    Extension = 2,
    StopGained = 3,
    Frameshift = 4,
    Substitution = 5,
    Deletion = 6,
    Duplication = 7,
    Insertion = 8,
    Delins = 9,
}

impl Class {
    // The word for it in a line of the text program.
    pub fn name(self) -> &'static [u8]
        ensures { result.now ≡ class_name self }
    {
        match self {
            Class::StartLost => b"start-lost",
            Class::Extension => b"extension",
            Class::StopGained => b"stop-gained",
            Class::Frameshift => b"frameshift",
            Class::Substitution => b"substitution",
            Class::Deletion => b"deletion",
            Class::Duplication => b"duplication",
            Class::Insertion => b"insertion",
            Class::Delins => b"delins",
        }
    }
}

// `len` bytes or residues, behind the first `at`.
#[derive(Clone, Copy)]
pub struct Part {
    pub at: usize,
    pub len: usize,
}

// `deleted` is a part of R, `inserted` a part of A. `first` is the number of the first residue that a duplication copies, and 0 in every
// other class.
#[derive(Clone, Copy)]
pub struct Change {
    pub class: Class,
    pub number: usize,
    pub deleted: Part,
    pub inserted: Part,
    pub first: usize,
}

#[derive(Clone, Copy)]
pub enum Record {
    Unknown,
    NoProtein,
    Silent { number: usize, residue: u8 },
    Changed(Change),
}

// A record, the frameshift flag, the number of bytes written to each of the three buffers, and of codons looked up.
#[derive(Clone, Copy)]
pub struct Report {
    pub found: Record,
    pub frameshift: bool,
    pub transcript: usize,
    pub reference: usize,
    pub altered: usize,
    pub codons: usize,
}

// Whether a proposed record replays, whether it is the shortest, and the number of bytes written to each of the three buffers.
#[derive(Clone, Copy)]
pub struct Verdict {
    pub replays: bool,
    pub shortest: bool,
    pub transcript: usize,
    pub reference: usize,
    pub altered: usize,
}

// The number of bytes that two edits of one reference write to each of the two buffers.
#[derive(Clone, Copy)]
pub struct PairReport {
    pub transcript: usize,
    pub altered: usize,
}

// The version of a store, and what a bench keeps in it: its default table, the profile (0 off, 1 on), the output width of residue names (1 or 3
// letters) and the longest edit in bases.
#[derive(Clone, Copy)]
pub struct Settings {
    pub version: usize,
    pub table: usize,
    pub profile: usize,
    pub width: usize,
    pub longest: usize,
}

// Why a store of settings isn't read: a refusal, or a version newer than the reader knows.
#[derive(Clone, Copy)]
pub enum Unread {
    Refused(Refusal),
    Newer,
}
