// A stream of lines answered: it is read in pieces and cut into lines, each line is answered in its turn, and the answers are
// written out where the next one may not fit.
#![tactic(auto)]

ghost use Rattle.std.specs.Prelude.{◌≡◌, ◌≤◌, ℕ, List, [], length, IfOk};
ghost use Rattle.texts.specs.Numbers.{put_into, place_behind};
ghost use Rattle.streams.specs.Answers.{onward, stream_of, gone_on, all_taken, whole_taken, Within};

use lines::Fed;
use lines::feeding::feed;
use std::io::{Error, Read};

// So many bytes are read at once.
const PIECE: usize = 65536;

// So many bytes of a line are kept: more than any line has that asks for something.
const LINE_ROOM: usize = 64;

// What answers lines.
pub trait Answering {
    // The answer to a line that comes after these lines.
    ghost text: { Self → List (List ℕ) → List ℕ → List ℕ };

    // Puts the answer to a line into a buffer at a place, and answers the place behind it. What does not fit is not put.
    fn answer(&mut self, line: &[u8], out: &mut [u8], at: usize) -> usize
        ensures value { result ≡ place_behind out.old at (text self.old [] line.now) }
        ensures out_after { out.new ≡ put_into out.old at (text self.old [] line.now) }
        ensures self_after { text self.new ≡ onward (text self.old) line.now };
}

// What is said to fail where a read fails, and where a write fails.
#[derive(Clone, Copy)]
pub struct Names<'a> {
    pub input: &'a str,
    pub output: &'a str,
}

// How far a stream has come: the place in the piece, how much is held of the line begun, and the place behind the answers.
#[derive(Clone, Copy)]
pub struct Progress {
    pub next: usize,
    pub held: usize,
    pub at: usize,
}

// Goes on after a part of a line: the line is answered if it is complete.
fn go_on<S: Answering>(state: &mut S, fed: Fed, line: &[u8], out: &mut [u8], at: usize) -> Progress
    requires { (fed.len ≤ length line.now) × (at ≤ length out.old) }
    ensures value { stream_of (S.text state.new) line.now out.new result ≡ gone_on fed (S.text state.old) line.now out.old at }
    ensures within { Within result line.now out.new }
{
    if fed.done {
        let end = state.answer(&line[..fed.len], out, at);
        return Progress {
            next: fed.next,
            held: 0,
            at: end,
        };
    }
    Progress {
        next: fed.next,
        held: fed.len,
        at,
    }
}

// Answers the lines that end in a piece, from a place on, until the piece ends or the answers come past the place `full`.
pub fn answer_piece<S: Answering>(
    state: &mut S,
    piece: &[u8],
    begun: Progress,
    line: &mut [u8],
    out: &mut [u8],
    full: usize,
) -> Progress
    requires { Within begun line.old out.old }
    ensures value { stream_of (S.text state.new) line.new out.new result ≡ all_taken full piece.now (stream_of (S.text state.old) line.old out.old begun) }
    ensures within { Within result line.new out.new }
{
    let mut now = begun;
    while now.next < piece.len() && now.at <= full {
        let fed = feed(piece, now.next, line, now.held);
        now = go_on(state, fed, line, out, now.at);
    }
    now
}

// Says on standard error what failed.
pub fn fail<R: Eprint>(rt: &R, what: &str, error: Error) {
    let _ = eprintln!(rt; "{what}: {error}");
}

// Answers the lines that end in a piece, and writes the answers out where the next one may not fit.
fn take_piece<R: Print, S: Answering>(
    rt: &R,
    state: &mut S,
    piece: &[u8],
    begun: Progress,
    line: &mut [u8],
    out: &mut [u8],
    full: usize,
) -> Result<Progress, Error>
    requires within { Within begun line.old out.old }
    requires room { begun.at ≤ full }
    ensures value { IfOk result (λ r. stream_of (S.text state.new) line.new out.new r
        ≡ whole_taken full piece.now (stream_of (S.text state.old) line.old out.old begun)) }
    ensures within { IfOk result (λ r. Within r line.new out.new × (r.at ≤ full)) }
{
    let mut now = Progress { next: 0, ..begun };
    while now.next < piece.len() {
        now = answer_piece(state, piece, now, line, out, full);
        if full < now.at {
            rt.write_all(&out[..now.at])?;
            now.at = 0;
        }
    }
    Ok(now)
}

// Answers an input to its end. Where a read fails, that is said, and the line begun is dropped; a last line that no line feed ends
// is answered. Then the rest of the answers is written.
fn answer_input<R: Print + Eprint, I: Read, S: Answering>(
    rt: &R,
    input: &mut I,
    name: &str,
    state: &mut S,
    out: &mut [u8],
    at: usize,
    full: usize,
) -> Result<(), Error>
    requires within { at ≤ length out.old }
    requires room { at ≤ full }
{
    let mut piece = [0u8; PIECE];
    let mut line = [0u8; LINE_ROOM];
    let mut now = Progress {
        next: 0,
        held: 0,
        at,
    };
    for _ in 0..u64::MAX {
        match input.read(&mut piece) {
            Ok(0) => break,
            Ok(n) => now = take_piece(rt, state, &piece[..n], now, &mut line, out, full)?,
            Err(error) => {
                fail(rt, name, error);
                now.held = 0;
                break;
            }
        }
    }
    if now.held != 0 {
        now.at = state.answer(&line[..now.held], out, now.at);
    }
    rt.write_all(&out[..now.at])
}

// Answers the lines of an input on standard output: the output buffer holds what comes before the answers, up to a place, and is
// written out where the answers come past the place `full`. After a write that fails nothing more is read or written.
pub fn answer_all<R: Print + Eprint, I: Read, S: Answering>(
    rt: &R,
    input: &mut I,
    names: Names,
    state: &mut S,
    out: &mut [u8],
    at: usize,
    full: usize,
)
    requires within { at ≤ length out.old }
    requires room { at ≤ full }
{
    if let Err(error) = answer_input(rt, input, names.input, state, out, at, full) {
        fail(rt, names.output, error);
    }
}
