// What `drill` answers to a line, and that as a line of text.
#![tactic(auto)]

ghost use Rattle.std.specs.Prelude.{◌≡◌, ◌+◌, ◌*◌, ◌≤◌, length, take};
ghost use Rattle.texts.specs.Numbers.{put_into, place_behind};
ghost use Rattle.texts.specs.Fields.{Fronted};
ghost use Rattle.replies.specs.Lines.{shown, hex_word, line_of, said_in};

use texts::{BLANK, LINE_FEED, put_byte, put_bytes, put_field, put_hex, put_line};

// A reply: a number, three, or a number and the first so many bytes of a buffer; or `bad`, a line of its own, where nothing is asked.
#[derive(Clone, Copy)]
pub enum Reply {
    One(u64),
    Three(u64, u64, u64),
    Bytes(u64, usize),
    Bad,
}

// The longest line, with a little more: a number and a blank, 4,096 bytes in hexadecimal, a line feed.
const LINE: usize = 8216;

// What stands for no bytes.
const DASH: u8 = b'-';

// The bytes in hexadecimal, or a dash where there are none.
fn put_word(line: &mut [u8], at: usize, bytes: &[u8]) -> usize
    requires { at + (1 + 2 * length bytes.now) ≤ length line.old }
    ensures { Fronted line.old at (hex_word bytes.now) result line.new }
{
    if bytes.is_empty() {
        return put_byte(line, at, DASH);
    }
    put_hex(line, at, bytes)
}

fn put_shown(line: &mut [u8], a: u64, bytes: &[u8]) -> usize
    requires { 23 + 2 * length bytes.now ≤ length line.old }
    ensures { Fronted line.old 0 (line_of (shown a bytes.now)) result line.new }
{
    let first = put_field(line, 0, a, BLANK);
    let end = put_word(line, first, bytes);
    put_byte(line, end, LINE_FEED)
}

// The first n bytes, all of them where there are fewer.
fn put_first(line: &mut [u8], a: u64, n: usize, bytes: &[u8]) -> usize
    requires { 23 + 2 * length bytes.now ≤ length line.old }
    ensures { Fronted line.old 0 (line_of (shown a (take n bytes.now))) result line.new }
{
    put_shown(line, a, &bytes[..n.min(bytes.len())])
}

// The line of a reply.
fn put_said(line: &mut [u8; LINE], r: Reply, bytes: &[u8; 4096]) -> usize
    ensures { Fronted line.old 0 (line_of (said_in r bytes.now)) result line.new }
{
    match r {
        Reply::One(a) => put_line(line, 0, &[a]),
        Reply::Three(a, b, c) => put_line(line, 0, &[a, b, c]),
        Reply::Bytes(a, n) => put_first(line, a, n, bytes),
        Reply::Bad => put_bytes(line, 0, b"bad\n"),
    }
}

// Puts the line of a reply at a place, and answers the place behind it.
pub fn put_reply(r: Reply, bytes: &[u8; 4096], out: &mut [u8], at: usize) -> usize
    ensures value { result ≡ place_behind out.old at (line_of (said_in r bytes.now)) }
    ensures out_after { out.new ≡ put_into out.old at (line_of (said_in r bytes.now)) }
{
    let mut line = [0u8; LINE];
    let end = put_said(&mut line, r, bytes);
    put_bytes(out, at, &line[..end])
}
