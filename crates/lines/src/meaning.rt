// What a line asks: its letter, its numbers, and the request or call they make.
ghost use Rattle.std.specs.Prelude.{◌≡◌, ◌≤◌, length, drop};
ghost use Rattle.lines.specs.Parts.{blank, first_part, parted, part_end};
ghost use Rattle.texts.specs.Numbers.{number_of};
ghost use Rattle.lines.specs.Requests.{letter_of, two_more, numbers_of, asked_of, request_of, inserting_of, alone, named, numbered, drill_of};

use crate::parts::part_end;
use crate::{Drill, Numbers, Request};
use rules::house::MOST_AREA;
use texts::{BLANK, LONG_DIGITS, SHORT_DIGITS, number};

// The most bytes that a line of `drill` may have lent.
const MOST_LENT: u32 = MOST_AREA as u32;

// The longest buffer that a line of `drill` may lend a confirmation.
pub const MOST_ROOM: u32 = 4096;

// The line's letter: its first word, if that is one byte.
fn letter_of(line: &[u8]) -> Option<u8>
    ensures { result ≡ letter_of (first_part blank line.now) }
{
    if part_end(line, 0, BLANK) == 1 {
        Some(line[0])
    } else {
        None
    }
}

// The number of 1 to `most` digits in the word from a place to its end.
fn number_at(line: &[u8], from: usize, end: usize, most: usize) -> Option<u32>
    requires { (from ≤ length line.now) × (end ≡ part_end blank line.now from) }
    ensures { result ≡ number_of most (first_part blank (drop from line.now)) }
{
    number(&line[from..end], most)
}

// A first number, and the two words from a place on.
fn two_more(line: &[u8], from: usize, most: usize, first: u32) -> Option<Numbers>
    requires { from ≤ length line.now }
    ensures { result ≡ two_more most (Some first) (parted blank (drop from line.now)) }
{
    let n = line.len();
    let end = part_end(line, from, BLANK);
    if n <= end {
        return None;
    }
    let last = part_end(line, end + 1, BLANK);
    if last < n {
        return None;
    }
    let second = number_at(line, from, end, most)?;
    let third = number_at(line, end + 1, last, most)?;
    Some(Numbers::Three(first, second, third))
}

// The numbers of 1 to `most` digits behind the line's first word.
fn numbers_in(line: &[u8], most: usize) -> Option<Numbers>
    ensures { result ≡ numbers_of most (parted blank line.now) }
{
    let n = line.len();
    let end = part_end(line, 0, BLANK);
    if n <= end {
        return Some(Numbers::Zero);
    }
    let next = part_end(line, end + 1, BLANK);
    let first = number_at(line, end + 1, next, most)?;
    if n <= next {
        return Some(Numbers::One(first));
    }
    two_more(line, next + 1, most, first)
}

// What a line asks of `replay`.
pub fn request(line: &[u8]) -> Option<Request>
    ensures { result ≡ request_of line.now }
{
    let letter = letter_of(line)?;
    match numbers_in(line, SHORT_DIGITS)? {
        Numbers::Zero => None,
        Numbers::One(name) => to_delete(letter, name),
        Numbers::Three(name, len, byte) => to_insert(letter, name, len, byte),
    }
}

// `D name`.
fn to_delete(letter: u8, name: u32) -> Option<Request>
    ensures { result ≡ asked_of letter (Some (Numbers.One name)) }
{
    if letter != b'D' {
        return None;
    }
    Some(Request::Delete(u16::try_from(name).ok()?))
}

// `I name length byte`.
fn to_insert(letter: u8, name: u32, len: u32, byte: u32) -> Option<Request>
    ensures { result ≡ asked_of letter (Some (Numbers.Three name len byte)) }
{
    if letter != b'I' {
        return None;
    }
    let name = u16::try_from(name).ok()?;
    let len = u16::try_from(len).ok()?;
    let byte = u8::try_from(byte).ok()?;
    Some(Request::Insert(name, len, byte))
}

// What a line asks of `drill`.
pub fn drill(line: &[u8]) -> Option<Drill>
    ensures { result ≡ drill_of line.now }
{
    let letter = letter_of(line)?;
    match numbers_in(line, LONG_DIGITS)? {
        Numbers::Zero => alone(letter),
        Numbers::One(n) => numbered(letter, n),
        Numbers::Three(name, len, byte) => inserting(to_insert(letter, name, len, byte)?),
    }
}

// An insertion is the same in both programs.
fn inserting(r: Request) -> Option<Drill>
    ensures { result ≡ inserting_of (Some r) }
{
    match r {
        Request::Insert(name, len, byte) => Some(Drill::Insert(name, len, byte)),
        Request::Delete(_) => None,
    }
}

// `S`, `A`.
fn alone(letter: u8) -> Option<Drill>
    ensures { result ≡ alone letter }
{
    match letter {
        b'S' => Some(Drill::Step),
        b'A' => Some(Drill::Sum),
        _ => None,
    }
}

// `O n`, `L n`, `C n`, and the calls with a name.
fn numbered(letter: u8, n: u32) -> Option<Drill>
    ensures { result ≡ numbered letter n }
{
    match letter {
        b'O' => Some(Drill::Open(n)),
        b'L' if n <= MOST_LENT => Some(Drill::Lend(n)),
        b'C' if n <= MOST_ROOM => Some(Drill::Confirm(n as u16)),
        _ => named(letter, u16::try_from(n).ok()?),
    }
}

// `D name`, `F name`, `R name`.
fn named(letter: u8, name: u16) -> Option<Drill>
    ensures { result ≡ named letter name }
{
    match letter {
        b'D' => Some(Drill::Delete(name)),
        b'F' => Some(Drill::Find(name)),
        b'R' => Some(Drill::Read(name)),
        _ => None,
    }
}
