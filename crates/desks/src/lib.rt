// The desk of `drill`: a store, how much of the area it was opened for, and how much is lent; how it is opened and lent.
// Every public function here takes any arguments. The fields are public, as the crate above makes desks of them. That is harmless:
// what a store holds is private to the crate `store`, every call of it tests the store it is handed, and any two numbers may stand
// beside one.
#![tactic(auto)]

ghost use Rattle.std.specs.Prelude.{◌≡◌, List, ℕ};
ghost use Rattle.rules.specs.Answers.{number_of};
ghost use Rattle.rules.specs.Calls.{footprint_of, volume_held};
ghost use Rattle.store.specs.Served.{model};
ghost use Rattle.desks.specs.Desks.{unopened};
ghost use Rattle.desks.specs.Served.{desk_in, ServedAs};

use lines::Drill;
use replies::Reply;
use rules::house::MOST_AREA;
use sizes::sizes_of;
use store::{Served, Store, calls};

// A store, the length it was opened for, at most that of the longest area, and how many bytes of the area are lent.
#[derive(Clone, Copy)]
pub struct Desk {
    pub store: Store,
    pub opened: usize,
    pub lent: usize,
}

// A request served: the desk afterwards, and the reply.
#[derive(Clone, Copy)]
pub struct Turn {
    pub desk: Desk,
    pub reply: Reply,
}

// The desk before the first opening: the store is that of a refused one, and nothing is lent.
pub fn empty() -> Desk
    ensures { (area : List ℕ) → desk_in result area ≡ unopened area }
{
    Desk {
        store: calls::open(0).store,
        opened: 0,
        lent: 0,
    }
}

// `O n`.
pub fn open(area: &mut [u8], n: u32) -> Turn
    ensures { (buf : List ℕ) → ServedAs (unopened area.old) (Some (Drill.Open n)) result area.new buf }
{
    area.fill(0);
    let s = calls::open(n as usize);
    let opened = (n as usize).min(MOST_AREA);
    Turn {
        desk: Desk {
            store: s.store,
            opened,
            lent: opened,
        },
        reply: Reply::One(u64::from(s.answer)),
    }
}

// `L n`.
pub fn lend(desk: Desk, n: u32) -> Turn
    ensures { (area : List ℕ) (buf : List ℕ) → ServedAs (desk_in desk area) (Some (Drill.Lend n)) result area buf }
{
    Turn {
        desk: Desk {
            lent: n as usize,
            ..desk
        },
        reply: Reply::One(0),
    }
}

// A call's answer with the sizes of the store that it handed back.
pub fn sized(opened: usize, lent: usize, s: Served) -> Turn
    ensures desk_value { result.desk ≡ record { store = s.store; opened = opened; lent = lent } }
    ensures reply_value { result.reply ≡ Reply.Three (number_of s.answer) (footprint_of (model s.store)) (volume_held (model s.store)) }
{
    let sizes = sizes_of(s.store);
    Turn {
        desk: Desk {
            store: s.store,
            opened,
            lent,
        },
        reply: Reply::Three(u64::from(s.answer), sizes.footprint, sizes.volume),
    }
}
