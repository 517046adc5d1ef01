// Reads requests from standard input, serves each of them and runs it to rest, and writes an answer line for each.
#![tactic(auto)]

ghost use Rattle.store.specs.Served.{model};
ghost use Rattle.replay.specs.Replies.{reply_after};

use rules::house::LEAST_AREA;
use session::{put_header, reply};
use store::Store;
use store::calls::open;
use streams::{Answering, Names, answer_all};

// More than any answer line takes.
const ANSWER_ROOM: usize = 128;

// How much output is collected before it is written.
const OUT_ROOM: usize = 65536;

// What is kept from line to line: the store, and its area.
#[derive(Drop)]
struct Session {
    store: Store,
    area: [u8; LEAST_AREA],
}

impl Answering for Session {
    ghost text = { λ s. reply_after (model s.store) s.area };

    fn answer(&mut self, line: &[u8], out: &mut [u8], at: usize) -> usize {
        let r = reply(self.store, &mut self.area, line, out, at);
        self.store = r.store;
        r.next
    }
}

fn main(rt: HostRuntime) {
    let opened = open(LEAST_AREA);
    let mut session = Session {
        store: opened.store,
        area: [0u8; LEAST_AREA],
    };
    let names = Names {
        input: "read",
        output: "write",
    };
    let mut out = [0u8; OUT_ROOM];
    let at = put_header(&mut out, 0);
    let full = OUT_ROOM - ANSWER_ROOM;
    answer_all(
        &rt,
        &mut rt.stdin(),
        names,
        &mut session,
        &mut out,
        at,
        full,
    );
}
