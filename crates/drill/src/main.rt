// `drill`: raw calls, one a line, refused ones included, from standard input to standard output.
#![tactic(auto)]

ghost use Rattle.desks.specs.Served.{desk_in};
ghost use Rattle.drill.specs.Replies.{answer_after};

use desks::{Desk, empty};
use drilling::calls::answer;
use lines::meaning::drill;
use rules::house::MOST_AREA;
use streams::{Answering, Names, answer_all};

// More than any answer line takes.
const ANSWER_ROOM: usize = 8400;

// How much output is collected before it is written.
const OUT_ROOM: usize = 65536;

// What is kept from line to line: the desk, and its area.
#[derive(Drop)]
struct Work {
    desk: Desk,
    area: [u8; MOST_AREA],
}

impl Answering for Work {
    ghost text = { λ s. answer_after (desk_in s.desk s.area) };

    fn answer(&mut self, line: &[u8], out: &mut [u8], at: usize) -> usize {
        let a = answer(self.desk, &mut self.area, drill(line), out, at);
        self.desk = a.desk;
        a.end
    }
}

fn main(rt: HostRuntime) {
    let mut work = Work {
        desk: empty(),
        area: [0u8; MOST_AREA],
    };
    let names = Names {
        input: "standard input",
        output: "standard output",
    };
    let mut out = [0u8; OUT_ROOM];
    let full = OUT_ROOM - ANSWER_ROOM;
    answer_all(&rt, &mut rt.stdin(), names, &mut work, &mut out, 0, full);
}
