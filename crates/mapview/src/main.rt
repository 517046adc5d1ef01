// `mapview [A]`: the map on standard input, for an area of A bytes, as text.
#![tactic(auto)]

ghost use Rattle.std.specs.Prelude.{◌≤◌, IfOk, length};

use rules::house::{ENTRY, HEAD, OBJECTS};
use std::env::{Env, FillError};
use std::io::{Error, Read};
use streams::fail;
use viewing::{ROOM, area_of, view};

// One byte more than the longest map has: what is longer is too long, whatever follows.
const MOST: usize = HEAD + ENTRY * OBJECTS + 1;

// Reads until the buffer is full or the input ends, and answers how many bytes came.
fn read_map<I: Read>(input: &mut I, buf: &mut [u8]) -> Result<usize, Error>
    ensures { IfOk result (λ n. n ≤ length buf.new) }
{
    let mut have = 0;
    while have < buf.len() {
        let n = input.read(&mut buf[have..])?;
        if n == 0 {
            return Ok(have);
        }
        have += n;
    }
    Ok(have)
}

fn print(rt: HostRuntime, text: &[u8]) {
    if let Err(error) = rt.write_all(text) {
        fail(&rt, "standard output", error);
    }
}

// Shows the map on standard input.
fn show(rt: HostRuntime, area: usize) {
    let mut buf = [0u8; MOST];
    match read_map(&mut rt.stdin(), &mut buf) {
        Ok(size) => {
            let mut out = [0u8; ROOM];
            let end = view(&buf[..size], area, &mut out);
            print(rt, &out[..end]);
        }
        Err(error) => fail(&rt, "standard input", error),
    }
}

fn has_word(rt: HostRuntime, i: usize) -> bool {
    let mut word = [0u8; 8];
    !matches!(rt.arg(i, &mut word), Err(FillError::NotPresent))
}

// How many words the program was started with, its own name the first: three where there are more.
fn count_words(rt: HostRuntime) -> usize {
    if !has_word(rt, 1) {
        return 1;
    }
    if has_word(rt, 2) { 3 } else { 2 }
}

fn main(rt: HostRuntime) {
    let mut word = [0u8; 8];
    // No word, or one that is longer than the buffer, is as an empty one.
    let n = rt.arg(1, &mut word).unwrap_or(0);
    match area_of(count_words(rt), &word[..n]) {
        Some(area) => show(rt, area),
        None => print(rt, b"usage: mapview [A]\n"),
    }
}
