// The requests, each as the table of the programs has it. The calls that change the store go through `bridge::serve`.
ghost use Rattle.std.specs.Prelude.{◌≡◌, List, [], ◌∷◌, ℕ, ◌≤◌, length, take};
ghost use Rattle.rules.specs.House.{most_area};
ghost use Rattle.texts.specs.Numbers.{put_into, place_behind};
ghost use Rattle.asking.specs.Asked.{find_told};
ghost use Rattle.store.specs.Served.{model};
ghost use Rattle.bridge.specs.Calling.{call_of};
ghost use Rattle.replies.specs.Lines.{one, said_in};
ghost use Rattle.lines.specs.Requests.{most_room};
ghost use Rattle.desks.specs.Desks.{after, placed, page_read, weight_from, sized, called};
ghost use Rattle.desks.specs.Served.{answer_to, desk_in, ServedAs};

use crate::Answered;
use crate::sums::{sum_of, weight_of};
use bridge::Call;
use desks::{Desk, Turn, lend, open, sized};
use lines::Drill;
use lines::meaning::MOST_ROOM;
use replies::{Reply, put_reply};
use rules::Name;
use rules::house::MOST_AREA;
use store::queries;

// The longest buffer lent to a confirmation.
const ROOM: usize = MOST_ROOM as usize;

// What each byte of it is before the call.
const UNWRITTEN: u8 = 170;

// An insert, a delete or a step.
fn change(desk: Desk, area: &mut [u8], call: Call, page: &[u8]) -> Turn
    ensures area_after { desk_in result.desk area.new ≡ called (desk_in desk area.old) (call_of call desk.lent page.now 1) }
    ensures reply_value { (buf : List ℕ) → said_in result.reply buf ≡ sized (desk_in desk area.old) (call_of call desk.lent page.now 1) }
{
    let mut none = [0u8; 1];
    let s = bridge::serve(desk.store, area, desk.lent, call, page, &mut none);
    sized(desk.opened, desk.lent, s)
}

// Room for the longest page that a line may ask for. All that is told of it is its length.
fn page_room() -> [u8; MOST_AREA]
    ensures { most_area ≡ length result }
{
    [0; MOST_AREA]
}

// `I name length byte`.
fn insert(desk: Desk, area: &mut [u8], name: u16, len: u16, byte: u8) -> Turn
    ensures { (buf : List ℕ) → ServedAs (desk_in desk area.old) (Some (Drill.Insert name len byte)) result area.new buf }
{
    let mut page = page_room();
    page.fill(byte);
    change(
        desk,
        area,
        Call::Insert(Name(name)),
        &page[..usize::from(len)],
    )
}

// A call that lends no page, as `D name` and `S`.
fn bare(desk: Desk, area: &mut [u8], call: Call) -> Turn
    ensures area_after { desk_in result.desk area.new ≡ called (desk_in desk area.old) (call_of call desk.lent (0 ∷ []) 1) }
    ensures reply_value { (buf : List ℕ) → said_in result.reply buf ≡ sized (desk_in desk area.old) (call_of call desk.lent (0 ∷ []) 1) }
{
    let page = [0u8; 1];
    change(desk, area, call, &page)
}

// `C n`.
fn confirm(desk: Desk, area: &mut [u8], n: u16, buf: &mut [u8]) -> Turn
    requires { length buf.old ≡ most_room }
    ensures { ServedAs (desk_in desk area.old) (Some (Drill.Confirm n)) result area.new buf.new }
{
    let page = [0u8; 1];
    let room = usize::from(n).min(ROOM);
    buf.fill(UNWRITTEN);
    let s = bridge::serve(
        desk.store,
        area,
        desk.lent,
        Call::Confirm,
        &page,
        &mut buf[..room],
    );
    Turn {
        desk: Desk {
            store: s.store,
            ..desk
        },
        reply: Reply::Bytes(u64::from(s.answer), room),
    }
}

// `F name`.
fn find(desk: Desk, name: u16) -> Reply
    ensures { (buf : List ℕ) → said_in result buf ≡ placed (find_told (model desk.store) name) }
{
    match queries::find(desk.store, Name(name)) {
        Ok(place) => Reply::Three(0, u64::from(place.at.0), u64::from(place.len)),
        Err(answer) => Reply::Three(u64::from(answer), 0, 0),
    }
}

// `R name`.
fn read(desk: Desk, area: &[u8], name: u16) -> Reply
    requires { length area.now ≤ most_area }
    ensures { (buf : List ℕ) → said_in result buf ≡ page_read (model desk.store) (take desk.lent area.now) name }
{
    let lent = &area[..desk.lent.min(area.len())];
    let blank = [9u8; 3];
    let answer = queries::read_answer(desk.store, lent, &blank, Name(name));
    let page = queries::read(desk.store, lent, &blank, Name(name));
    Reply::Three(u64::from(answer), page.len() as u64, sum_of(page))
}

// `A`.
fn sum(desk: Desk, area: &[u8]) -> Reply
    requires { length area.now ≤ most_area }
    ensures { (buf : List ℕ) → said_in result buf ≡ one (weight_from 1 (take desk.opened area.now)) }
{
    Reply::One(weight_of(&area[..desk.opened.min(area.len())]))
}

// Serves a request; where there is none, the line is bad.
fn turn(desk: Desk, area: &mut [u8; MOST_AREA], asked: Option<Drill>, buf: &mut [u8; ROOM]) -> Turn
    ensures { ServedAs (desk_in desk area.old) asked result area.new buf.new }
{
    let Some(call) = asked else {
        return Turn {
            desk,
            reply: Reply::Bad,
        };
    };
    match call {
        Drill::Open(n) => open(area, n),
        Drill::Lend(n) => lend(desk, n),
        Drill::Insert(name, len, byte) => insert(desk, area, name, len, byte),
        Drill::Delete(name) => bare(desk, area, Call::Delete(Name(name))),
        Drill::Step => bare(desk, area, Call::Step),
        Drill::Confirm(n) => confirm(desk, area, n, buf),
        Drill::Find(name) => Turn {
            desk,
            reply: find(desk, name),
        },
        Drill::Read(name) => Turn {
            desk,
            reply: read(desk, area, name),
        },
        Drill::Sum => Turn {
            desk,
            reply: sum(desk, area),
        },
    }
}

// Answers a request, or a line that is none: its line goes into the output at a place.
pub fn answer(
    desk: Desk,
    area: &mut [u8; MOST_AREA],
    asked: Option<Drill>,
    out: &mut [u8],
    at: usize,
) -> Answered
    ensures area_after { desk_in result.desk area.new ≡ after (desk_in desk area.old) asked }
    ensures end_value { result.end ≡ place_behind out.old at (answer_to (desk_in desk area.old) asked) }
    ensures out_after { out.new ≡ put_into out.old at (answer_to (desk_in desk area.old) asked) }
{
    let mut buf = [0u8; ROOM];
    let t = turn(desk, area, asked, &mut buf);
    Answered {
        desk: t.desk,
        end: put_reply(t.reply, &buf, out, at),
    }
}
