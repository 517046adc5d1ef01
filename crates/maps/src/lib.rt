// The map: written from columns, tested, asked and written again, on bytes and a count.
// Every public function here is an entry point and takes any arguments: bytes and a count need not fit each other. `readers` has them as one.
#![tactic(auto)]

ghost use Rattle.std.specs.Prelude.{◌≡◌, ◌≤◌, ◌+◌, ◌-◌, ◌*◌, length};
ghost use Rattle.rules.specs.House.{most_objects, head_size, entry_size};
ghost use Rattle.mapform.specs.Maps.{reach, objects_in, map_as, map_of, put_answer, put_into};
ghost use Rattle.mapform.specs.Reading.{marked, size_fits, map_answer, count_of, seen_count, seen_in};
ghost use Rattle.maps.specs.Finding.{bisect, find_in};

use leaves::tests::area_fits;
use mapcheck::list_fits;
use mapform::{MARK, VERSION, put_again, put_map, word};
use ranks::name_order;
use rules::house::{ENTRY, HEAD, OBJECTS};
use rules::{Addr, Answer, Name, Place};

// Writing

fn reach_of(count: usize, names: usize, places: usize, lens: usize) -> usize
    ensures value { result ≡ reach count names places lens }
    ensures within { (result ≤ most_objects) × (result ≤ names) × (result ≤ places) × (result ≤ lens) }
{
    count.min(OBJECTS).min(names).min(places).min(lens)
}

// Writes the map of the first `count` objects of the columns to the buffer's front.
// The columns are of any lengths, each its own. No more objects are taken than the house allows, and no more than all three columns have.
pub fn write_map<'a>(
    names: &'a [u16],
    places: &'a [u32],
    lens: &'a [u16],
    count: usize,
    buf: &mut [u8],
) -> Answer
    ensures { (result ≡ put_answer (map_of (objects_in names.now places.now lens.now count)) buf.old) × (buf.new ≡ put_into (map_of (objects_in names.now places.now lens.now count)) buf.old) }
{
    let n = reach_of(count, names.len(), places.len(), lens.len());
    let size = HEAD + ENTRY * n;
    if buf.len() < size {
        return Answer::ShortBuffer;
    }
    let order = name_order(&names[..n]);
    put_map(&mut buf[..size], names, places, lens, &order[..n]);
    Answer::Done
}

// Reading

fn has_mark(bytes: &[u8]) -> bool
    ensures { result ≡ marked bytes.now }
{
    HEAD <= bytes.len() && bytes.starts_with(&MARK)
}

fn size_ok(bytes: &[u8]) -> bool
    requires { head_size ≤ length bytes.now }
    ensures { result ≡ size_fits bytes.now }
{
    let n = word(bytes, 5) as usize;
    n <= OBJECTS && bytes.len() == HEAD + ENTRY * n
}

// The answer to bytes that are to be opened as a map, for an area of this length.
#[tactic(auto, unfolding(mapform::specs::Reading::map_answer, rules::specs::Answers::first))]
pub fn open_answer(bytes: &[u8], area: usize) -> Answer
    ensures { result ≡ map_answer area bytes.now }
{
    if !area_fits(area) {
        return Answer::WrongArea;
    }
    if !has_mark(bytes) {
        return Answer::NoMap;
    }
    if word(bytes, 3) != VERSION {
        return Answer::BadVersion;
    }
    if !size_ok(bytes) {
        return Answer::BadSize;
    }
    let n = word(bytes, 5) as usize;
    if !list_fits(bytes, n, area) {
        return Answer::BadEntry;
    }
    Answer::Done
}

// How many entries an opened map shows: none where it is refused.
pub fn count_in(bytes: &[u8], area: usize) -> usize
    ensures { result ≡ count_of area bytes.now }
{
    match open_answer(bytes, area) {
        Answer::Done => word(bytes, 5) as usize,
        _ => 0,
    }
}

fn seen_count(bytes: &[u8], count: usize) -> usize
    ensures value { result ≡ seen_count bytes.now count }
    ensures within { entry_size * result ≤ length bytes.now - head_size }
{
    if count <= bytes.len().saturating_sub(HEAD) / ENTRY {
        count
    } else {
        0
    }
}

// Where the name x lies among the first n entries, by halves: a `while`, since it counts nothing.
fn bisect_in(bytes: &[u8], n: usize, x: u16) -> Result<Place, Answer>
    requires { entry_size * n ≤ length bytes.now - head_size }
    ensures { result ≡ bisect n bytes.now x 0 n }
{
    let mut lo: usize = 0;
    let mut hi = n;
    while lo < hi {
        let mid = lo + (hi - lo) / 2;
        let at = HEAD + ENTRY * mid;
        let y = word(bytes, at);
        if y == x {
            return Ok(Place {
                at: Addr(word(bytes, at + 2)),
                len: word(bytes, at + 4),
            });
        }
        if y < x {
            lo = mid + 1;
        } else {
            hi = mid;
        }
    }
    Err(Answer::NotHeld)
}

// What bytes and a count answer to a name; where they are an opened map's, what its list answers.
pub fn find_in(bytes: &[u8], count: usize, name: Name) -> Result<Place, Answer>
    ensures { result ≡ find_in bytes.now count name.0 }
{
    if name.0 == 0 {
        return Err(Answer::NameZero);
    }
    bisect_in(bytes, seen_count(bytes, count), name.0)
}

// Writes the map of the entries that bytes and a count show to the buffer's front.
pub fn write_in(bytes: &[u8], count: usize, buf: &mut [u8]) -> Answer
    ensures { (result ≡ put_answer (map_as (seen_in bytes.now count)) buf.old) × (buf.new ≡ put_into (map_as (seen_in bytes.now count)) buf.old) }
{
    let n = seen_count(bytes, count);
    let need = HEAD + ENTRY * n;
    if buf.len() < need {
        return Answer::ShortBuffer;
    }
    put_again(&mut buf[..need], bytes, n);
    Answer::Done
}
