// A map opened for reading without a copy: a reader holds the lent bytes, and its functions take it apart and call those of `maps`.
// Every public function here is an entry point and takes any arguments.
#![tactic(auto)]

ghost use Rattle.std.specs.Prelude.{◌≡◌};
ghost use Rattle.mapform.specs.Maps.{put_answer, put_into};
ghost use Rattle.mapform.specs.Reading.{list_of};
ghost use Rattle.readers.specs.Readers.{look_up, opened, found_by, map_by};

use maps::{count_in, find_in, write_in};
use rules::{Answer, Name, Place};

// The reader: the bytes lent, and how many entries they show.
#[derive(Clone, Copy)]
pub struct Reader<'a> {
    bytes: &'a [u8],
    count: usize,
}

// Opens a map. A refused one shows no entry; why it is refused is what `maps::open_answer` answers to the same arguments.
pub fn open<'a>(bytes: &'a [u8], area: usize) -> Reader<'a>
    ensures { result ≡ opened area bytes.entry }
{
    Reader {
        bytes,
        count: count_in(bytes, area),
    }
}

pub fn find<'a>(r: Reader<'a>, name: Name) -> Result<Place, Answer>
    ensures { result ≡ found_by r.entry name.0 }
{
    find_in(r.bytes, r.count, name)
}

// Opened and asked once: whoever calls this needs no reader.
pub fn look(bytes: &[u8], area: usize, name: Name) -> Result<Place, Answer>
    ensures { result ≡ look_up (list_of area bytes.now) name.0 }
{
    find(open(bytes, area), name)
}

// Writes the map of what a reader sees to the buffer's front: of an accepted map the same bytes.
pub fn write_again<'a, 'b>(r: Reader<'a>, buf: &'b mut [u8]) -> Answer
    ensures { (result ≡ put_answer (map_by r.entry) buf.old) × (buf.new ≡ put_into (map_by r.entry) buf.old) }
{
    write_in(r.bytes, r.count, buf)
}
