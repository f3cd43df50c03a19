// The text program: reads a reference and edits from standard input, and writes what they are answered to standard output. The file stdin beside src/
// has document 01's thirteen lines, lines that tell readings of it apart, long lines and some fourteen thousand random edits; the file stdout was written by an
// account of document 01 in another language (tests/account).
//
// What went wrong is said on standard error, in a line that begins with `error: `, and the exit status is 1; where nobody reads the answers any more, it is
// 141 and nothing is said. A line that begins with `hint: ` is for the reader alone.
#![tactic(auto)]

mod says;

ghost use Rattle.std.specs.Prelude.{◌≡◌, List, ℕ, ◌≤◌, length, take, Err, OnOk};
ghost use Rattle.text_answers.specs.Stage.{is_ended};
ghost use Rattle.text_gather.specs.Steps.{after};
ghost use Rattle.text_lines.specs.Memory.{stage_of, Rooms, Keeps};
ghost use Rattle.annotate.specs.Turns.{piece_room, next_by, is_read, status_of, Stepped, Turned};

use says::{hint_return, say_unread, say_unwritten};
use std::io::{ErrorKind, Read, Stderr, Stdin, Stdout, Write};
use std::process::ExitCode;
use text_answers::{LETTERS, LINE, PROTEIN};
use text_lines::State;

// What is read and written at once.
const PIECE: usize = 65536;

// The exit status where something went wrong, and a shell's for a program that a broken pipe has ended.
const FAILED: u8 = 1;

const CLOSED: u8 = 141;

// What comes behind a read: another; the answer to the last line, at the input's end; or nothing, behind a refused first line.
#[derive(Clone, Copy)]
enum Next {
    Read,
    Finish,
    Stop,
}

// Why bytes weren't written: nobody reads them any more, or something else.
#[derive(Clone, Copy)]
enum Unsent {
    Closed,
    Failed,
}

// Why a run breaks off: the input can't be read, or the answers can't be written.
#[derive(Clone, Copy)]
enum Failure {
    Unread,
    Unwritten(Unsent),
}

impl From<Unsent> for Failure {
    ghost use Rattle.annotate.specs.declared.Failure.TheVariants.{Unwritten};

    ghost from_gives = { λ unsent failure. failure ≡ Unwritten unsent };

    fn from(unsent: Unsent) -> Failure {
        Failure::Unwritten(unsent)
    }
}

// Writes bytes out.
fn send(stdout: &mut Stdout, bytes: &[u8]) -> Result<(), Unsent> {
    stdout.write_all(bytes).map_err(|e| match e.kind() {
        ErrorKind::BrokenPipe => Unsent::Closed,
        _ => Unsent::Failed,
    })
}

// Answers as much of a piece as there is room for, and writes the answers out. The result is how much that is.
fn put_some(
    stdout: &mut Stdout,
    state: &mut State,
    line: &mut [u8],
    letters: &mut [u8],
    protein: &mut [u8],
    input: &[u8],
    out: &mut [u8],
) -> Result<usize, Unsent>
    requires rooms { Rooms line.old letters.old protein.old }
    requires keeps { Keeps state.old letters.old protein.old }
    ensures still_keeps { Keeps state.new letters.new protein.new }
    ensures steps { Stepped result (stage_of state.old line.old letters.old) (stage_of state.new line.new letters.new) input.now out.old out.new }
{
    let stepped = text_lines::step(*state, line, letters, protein, input, out);
    *state = stepped.state;
    send(stdout, &out[..stepped.used])?;
    Ok(stepped.taken)
}

// Answers a piece of input, and writes the answers out whenever the output is full and at the piece's end.
fn run_piece(
    stdout: &mut Stdout,
    state: &mut State,
    line: &mut [u8],
    letters: &mut [u8],
    protein: &mut [u8],
    input: &[u8],
    out: &mut [u8],
) -> Result<(), Unsent>
    requires rooms { Rooms line.old letters.old protein.old }
    requires keeps { Keeps state.old letters.old protein.old }
    requires out_len { length out.old ≡ piece_room }
    ensures still_keeps { Keeps state.new letters.new protein.new }
    ensures reaches { OnOk result (stage_of state.new line.new letters.new ≡ after (stage_of state.old line.old letters.old) input.now) }
{
    let mut at = 0;
    // Kept: no for, since each turn finds how far it goes.
    while at < input.len() {
        let taken = put_some(stdout, state, line, letters, protein, &input[at..], out)?;
        at += taken;
    }
    Ok(())
}

// What comes behind a piece: nothing behind a refused first line, and none where its answers weren't written.
fn next_of(state: State, sent: Result<(), Unsent>) -> Result<Next, Failure>
    ensures { (line letters : List ℕ) → result ≡ next_by sent (is_ended (stage_of state line letters)) }
{
    sent?;
    if text_lines::is_over(state) {
        return Ok(Next::Stop);
    }
    Ok(Next::Read)
}

// Reads once, and answers what came. A read that fails ends the run: what came before it is written.
fn run_once(
    stdin: &mut Stdin,
    stdout: &mut Stdout,
    state: &mut State,
    line: &mut [u8],
    letters: &mut [u8],
    protein: &mut [u8],
    input: &mut [u8],
    out: &mut [u8],
) -> Result<Next, Failure>
    requires rooms { Rooms line.old letters.old protein.old }
    requires keeps { Keeps state.old letters.old protein.old }
    requires out_len { length out.old ≡ piece_room }
    ensures still_keeps { Keeps state.new letters.new protein.new }
    ensures turned { (came : ℕ) × (came ≤ length input.new)
        × Turned result (stage_of state.old line.old letters.old) (stage_of state.new line.new letters.new) (take came input.new) }
{
    let Ok(came) = stdin.read(input) else {
        return Err(Failure::Unread);
    };
    if came == 0 {
        return Ok(Next::Finish);
    }
    let sent = run_piece(stdout, state, line, letters, protein, &input[..came], out);
    next_of(*state, sent)
}

// Whether there is another read.
fn is_read(next: Next) -> bool
    ensures { result ≡ is_read next }
{
    matches!(next, Next::Read)
}

// Reads and answers to the end. A proved loop has to end, and nothing says that the input does: the loop counts its turns, to a number that no run
// comes to.
fn run_reads(
    stdin: &mut Stdin,
    stdout: &mut Stdout,
    state: &mut State,
    line: &mut [u8],
    letters: &mut [u8],
    protein: &mut [u8],
    input: &mut [u8],
    out: &mut [u8],
) -> Result<Next, Failure>
    requires rooms { Rooms line.old letters.old protein.old }
    requires keeps { Keeps state.old letters.old protein.old }
    requires out_len { length out.old ≡ piece_room }
    ensures still_keeps { Keeps state.new letters.new protein.new }
{
    for _ in 0..u64::MAX {
        let next = run_once(stdin, stdout, state, line, letters, protein, input, out)?;
        if !is_read(next) {
            return Ok(next);
        }
    }
    Ok(Next::Read)
}

// Answers a last line that no line feed ends.
fn run_last(
    stdout: &mut Stdout,
    state: State,
    line: &mut [u8],
    letters: &mut [u8],
    protein: &mut [u8],
    out: &mut [u8],
) -> Result<(), Unsent>
    requires rooms { Rooms line.old letters.old protein.old }
    requires keeps { Keeps state letters.old protein.old }
{
    let Ok(size) = text_lines::finish(state, line, letters, protein, out) else {
        return Err(Unsent::Failed);
    };
    send(stdout, &out[..size])
}

// What comes behind the last read.
fn end_run(
    stdout: &mut Stdout,
    ended: Result<Next, Failure>,
    state: State,
    line: &mut [u8],
    letters: &mut [u8],
    protein: &mut [u8],
    out: &mut [u8],
) -> Result<(), Failure>
    requires rooms { Rooms line.old letters.old protein.old }
    requires keeps { Keeps state letters.old protein.old }
    ensures failure { (f : Failure) → ended ≡ Err f → result ≡ Err f }
{
    match ended? {
        Next::Finish => Ok(run_last(stdout, state, line, letters, protein, out)?),
        _ => Ok(()),
    }
}

// Says what went wrong, unless nobody reads the answers any more, and gives the exit status.
fn status_of(stderr: &mut Stderr, done: Result<(), Failure>) -> u8
    ensures { result ≡ status_of done }
{
    match done {
        Ok(()) => 0,
        Err(Failure::Unread) => {
            say_unread(stderr);
            FAILED
        }
        Err(Failure::Unwritten(Unsent::Failed)) => {
            say_unwritten(stderr);
            FAILED
        }
        Err(Failure::Unwritten(Unsent::Closed)) => CLOSED,
    }
}

fn main(rt: HostRuntime) -> ExitCode {
    let mut stdin = rt.stdin();
    let mut stdout = rt.stdout();
    let mut stderr = rt.stderr();
    let mut state = text_lines::start();
    let mut line = [0u8; LINE];
    let mut letters = [0u8; LETTERS];
    let mut protein = [0u8; PROTEIN];
    let mut input = [0u8; PIECE];
    let mut out = [0u8; PIECE];
    let ended = run_reads(
        &mut stdin,
        &mut stdout,
        &mut state,
        &mut line,
        &mut letters,
        &mut protein,
        &mut input,
        &mut out,
    );
    hint_return(&mut stderr, state, &line);
    let done = end_run(
        &mut stdout,
        ended,
        state,
        &mut line,
        &mut letters,
        &mut protein,
        &mut out,
    );
    ExitCode::from(status_of(&mut stderr, done))
}
