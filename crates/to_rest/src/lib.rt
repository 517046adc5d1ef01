// A request of a session, served and run to rest. A host cannot look into the store: a step tells whether a flush runs and whether a
// checkpoint is due. The public function takes any arguments.
#![tactic(auto)]

ghost use Rattle.std.specs.Prelude.{◌≡◌};
ghost use Rattle.rules.specs.Calls.{confirm_of};
ghost use Rattle.store.specs.Served.{model};
ghost use Rattle.to_rest.specs.Runs.{map_room, turn_of, to_rest, fuel, ran_of};
ghost use Rattle.to_rest.specs.Values.{turn_in, ran_in, starting_in, RestsIfDone};

use lines::Request;
use rules::house::{ENTRY, HEAD, LONGEST_PAGE, OBJECTS};
use rules::{Answer, Name};
use store::calls::{confirm, delete, insert, step};
use store::{Served, Store};

// The turns that bring any flush to rest: each object is moved at most once in each of four phases, a wait comes after a move, and
// one more where there is none.
const TURNS: u32 = 8 * (OBJECTS as u32) + 1;

// The room of the longest map.
const MAP_ROOM: usize = HEAD + ENTRY * OBJECTS;

// The longest page that is stored, and one more: any longer page is refused as that one is.
const PAGE_ROOM: usize = LONGEST_PAGE + 1;

// A request that was served and run to rest: the store, the answer of the call, the moves made and the confirmations due.
#[derive(Clone, Copy)]
pub struct Ran {
    pub store: Store,
    pub answer: Answer,
    pub moves: u32,
    pub waits: u32,
}

// What a turn did: a move, a wait closed by a confirmation, or nothing.
#[derive(Clone, Copy)]
enum Did {
    Move,
    Wait,
    Nothing,
}

// A turn: the store, and what was done.
#[derive(Clone, Copy)]
struct Turned {
    store: Store,
    did: Did,
}

// The store after a confirmation whose map goes nowhere.
fn confirmed(store: Store) -> Store
    ensures { model result ≡ (confirm_of (model store) map_room).store }
{
    let mut map = [0u8; MAP_ROOM];
    confirm(store, &mut map).store
}

// One turn: a step, and a confirmation where the step says that a checkpoint is due.
fn turn(store: Store, area: &mut [u8]) -> Turned
    ensures { turn_in result area.new ≡ turn_of (model store) area.old }
{
    let t = step(store, area);
    match t.answer {
        Answer::CheckpointDue => Turned {
            store: confirmed(t.store),
            did: Did::Wait,
        },
        Answer::Running => Turned {
            store: t.store,
            did: Did::Move,
        },
        _ => Turned {
            store: t.store,
            did: Did::Nothing,
        },
    }
}

// A run before its first turn.
fn starting(begun: Served) -> Ran
    ensures { result ≡ starting_in begun }
{
    Ran {
        store: begun.store,
        answer: begun.answer,
        moves: 0,
        waits: 0,
    }
}

// Turns until one does nothing.
fn to_rest(begun: Served, area: &mut [u8]) -> Ran
    ensures { ran_in result area.new ≡ to_rest fuel (ran_in (starting_in begun) area.old) }
{
    let mut ran = starting(begun);
    for _turn in 0..TURNS {
        let t = turn(ran.store, area);
        ran.store = t.store;
        match t.did {
            Did::Move => ran.moves += 1,
            Did::Wait => ran.waits += 1,
            Did::Nothing => return ran,
        }
    }
    ran
}

// The run after a request's call; one that was done at once is at rest.
fn run_on(begun: Served, area: &mut [u8]) -> Ran
    requires { RestsIfDone begun }
    ensures { ran_in result area.new ≡ to_rest fuel (ran_in (starting_in begun) area.old) }
{
    match begun.answer {
        Answer::Done => starting(begun),
        _ => to_rest(begun, area),
    }
}

// Stores a page of one byte, over and over.
fn insert_page(store: Store, area: &mut [u8], name: u16, len: u16, byte: u8) -> Ran
    ensures { ran_in result area.new ≡ ran_of (model store) area.old (Some (Request.Insert name len byte)) }
{
    let page = [byte; PAGE_ROOM];
    let n = usize::from(len).min(PAGE_ROOM);
    let begun = insert(store, area, Name(name), &page[..n]);
    run_on(begun, area)
}

// A request served, and run to rest; where there is none, nothing is done.
pub fn serve(store: Store, area: &mut [u8], r: Option<Request>) -> Ran
    ensures { ran_in result area.new ≡ ran_of (model store) area.old r }
{
    match r {
        Some(Request::Insert(name, len, byte)) => insert_page(store, area, name, len, byte),
        Some(Request::Delete(name)) => run_on(delete(store, Name(name)), area),
        None => Ran {
            store,
            answer: Answer::Done,
            moves: 0,
            waits: 0,
        },
    }
}
