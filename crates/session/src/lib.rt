// Sessions of `replay`: a request is served and run to rest, and its answer line, five numbers parted by blanks, is put into a lent buffer.
// Every public function here takes any arguments.
#![tactic(auto)]

ghost use Rattle.std.specs.Prelude.{◌≡◌};
ghost use Rattle.lines.specs.Requests.{request_of};
ghost use Rattle.texts.specs.Numbers.{put_into, place_behind};
ghost use Rattle.store.specs.Served.{model};
ghost use Rattle.to_rest.specs.Runs.{ran_of};
ghost use Rattle.session.specs.Texts.{ran_text, bad_text, reply_to, header};

use lines::meaning::request;
use sizes::sizes_of;
use store::Store;
use texts::{put_bytes, put_line};
use to_rest::{Ran, serve};

// The room for an answer line: five numbers of at most 20 digits, and a byte behind each.
const LINE_ROOM: usize = 105;

// A line that was answered: the store, and the place behind the answer in the buffer.
#[derive(Clone, Copy)]
pub struct Replied {
    pub store: Store,
    pub next: usize,
}

// The answer line of a request that was served.
pub fn put_ran(out: &mut [u8], at: usize, ran: Ran) -> usize
    ensures value { result ≡ place_behind out.old at (ran_text ran.answer ran.moves ran.waits (model ran.store)) }
    ensures out_after { out.new ≡ put_into out.old at (ran_text ran.answer ran.moves ran.waits (model ran.store)) }
{
    let sizes = sizes_of(ran.store);
    let numbers = [
        u64::from(ran.answer),
        u64::from(ran.moves),
        u64::from(ran.waits),
        sizes.footprint,
        sizes.volume,
    ];
    let mut line = [0u8; LINE_ROOM];
    let end = put_line(&mut line, 0, &numbers);
    put_bytes(out, at, &line[..end])
}

// The answer to a line that is no request.
fn put_bad(out: &mut [u8], at: usize) -> usize
    ensures value { result ≡ place_behind out.old at bad_text }
    ensures out_after { out.new ≡ put_into out.old at bad_text }
{
    put_bytes(out, at, b"bad\n")
}

// Answers a line: what it asks is served and run to rest, and the answer line is put into a buffer at a place.
pub fn reply<'a, 'b>(
    store: Store,
    area: &'a mut [u8],
    line: &'b [u8],
    out: &'a mut [u8],
    at: usize,
) -> Replied
    ensures store_value { model result.store ≡ (ran_of (model store) area.old (request_of line.now)).store }
    ensures next_value { result.next ≡ place_behind out.old at (reply_to (model store) area.old line.now) }
    ensures area_after { area.new ≡ (ran_of (model store) area.old (request_of line.now)).area }
    ensures out_after { out.new ≡ put_into out.old at (reply_to (model store) area.old line.now) }
{
    let Some(asked) = request(line) else {
        return Replied {
            store,
            next: put_bad(out, at),
        };
    };
    let ran = serve(store, area, Some(asked));
    Replied {
        store: ran.store,
        next: put_ran(out, at, ran),
    }
}

// The heading of the answer lines.
pub fn put_header(out: &mut [u8], at: usize) -> usize
    ensures value { result ≡ place_behind out.old at header }
    ensures out_after { out.new ≡ put_into out.old at header }
{
    put_bytes(out, at, b"answer moves waits footprint volume\n")
}
