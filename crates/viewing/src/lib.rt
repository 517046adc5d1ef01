// A map as text: a line with the answer and the count, then a line for each entry; and the area's length that a program's words ask for.
// Every public function here takes any arguments.
#![tactic(auto)]

ghost use Rattle.std.specs.Prelude.{◌≡◌, ◌+◌, ◌≤◌, ◌<◌, length};
ghost use Rattle.rules.specs.House.{most_objects, entry_size};
ghost use Rattle.rules.specs.Answers.{number_of};
ghost use Rattle.mapform.specs.Entries.{entry_at};
ghost use Rattle.texts.specs.Fields.{Fronted};
ghost use Rattle.viewing.specs.Views.{head_room, row_room, head_text, row_text, view_text};
ghost use Rattle.viewing.specs.Asking.{asked_of};

use mapform::word;
use maps::{count_in, open_answer};
use rules::Answer;
use rules::house::{ENTRY, HEAD, MOST_AREA, OBJECTS};
use texts::{LONG_DIGITS, number, put_line};

// The room of a number with at most five digits and a byte behind it.
const FIELD: usize = 6;

// The room for any view: a head of two numbers, a row of three for each object, and as many bytes more as `put_field` asks for.
pub const ROOM: usize = 2 * FIELD + 3 * FIELD * OBJECTS + 15;

// The line of an answer and a count.
fn put_head(out: &mut [u8], answer: Answer, count: usize) -> usize
    requires { (head_room + 15 ≤ length out.old) × (count ≤ most_objects) }
    ensures fronted { Fronted out.old 0 (head_text (number_of answer) count) result out.new }
    ensures within { result ≤ head_room }
{
    put_line(out, 0, &[u64::from(answer), count as u64])
}

// The line of the entry at a place of the map.
fn put_row(out: &mut [u8], at: usize, bytes: &[u8], place: usize) -> usize
    requires { (at + row_room + 15 ≤ length out.old) × (place + entry_size ≤ length bytes.now) }
    ensures fronted { Fronted out.old at (row_text (entry_at bytes.now place)) result out.new }
    ensures within { result ≤ at + row_room }
{
    let name = u64::from(word(bytes, place));
    let at_byte = u64::from(word(bytes, place + 2));
    let len = u64::from(word(bytes, place + 4));
    put_line(out, at, &[name, at_byte, len])
}

// The view of bytes as a map for an area of this length, at the buffer's front; the place behind it.
pub fn view(bytes: &[u8], area: usize, out: &mut [u8; ROOM]) -> usize
    ensures fronted { Fronted out.old 0 (view_text area bytes.now) result out.new }
    ensures within { result ≤ length out.new }
{
    let n = count_in(bytes, area);
    let mut at = put_head(out, open_answer(bytes, area), n);
    for i in 0..n {
        at = put_row(out, at, bytes, HEAD + ENTRY * i);
    }
    at
}

// The area's length that a program is asked for, by the number of its words, its own name the first, and its second word; none if
// they ask for no view.
pub fn area_of(words: usize, word: &[u8]) -> Option<usize>
    ensures { result ≡ asked_of words word.now }
{
    match words {
        0 | 1 => Some(MOST_AREA),
        2 => Some(number(word, LONG_DIGITS)? as usize),
        _ => None,
    }
}
