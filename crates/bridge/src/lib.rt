// The code's calls are the history's calls: one function takes any call that may change the store, hands it to the store's own
// function, and is proved equal to the rules' `serve`. So what the demands say of every history they say of this code.
#![tactic(auto)]

ghost use Rattle.std.specs.Prelude.{◌≡◌, false, length};
ghost use Rattle.rules.specs.Answers.{accepted};
ghost use Rattle.rules.specs.History.{History, outcome_of, insert as called_insert, step as called_step};
ghost use Rattle.store.specs.Served.{model};
ghost use Rattle.bridge.specs.Calling.{call_of, buffer_after, StandsAt, ServedAs, Did};

use rules::Name;
use store::{Served, Store, calls};

// A call that may change the store. Its bytes are lent beside it.
#[derive(Clone, Copy)]
pub enum Call {
    Insert(Name),
    Delete(Name),
    Step,
    Confirm,
}

// The store's insert, lent the front of the area.
fn insert(store: Store, area: &mut [u8], lent: usize, name: Name, page: &[u8]) -> Served
    ensures { Did (outcome_of (model store) area.old (called_insert lent name.0 page.now)) store result area.old area.new }
{
    let n = lent.min(area.len());
    calls::insert(store, &mut area[..n], name, page)
}

// The store's step, lent the front of the area.
fn step(store: Store, area: &mut [u8], lent: usize) -> Served
    ensures { Did (outcome_of (model store) area.old (called_step lent)) store result area.old area.new }
{
    let n = lent.min(area.len());
    calls::step(store, &mut area[..n])
}

// Serves a call. An insert and a step are lent the first `lent` bytes of the area, all of it where it has fewer; an insert is
// lent the page, a confirmation the buffer.
pub fn serve(
    store: Store,
    area: &mut [u8],
    lent: usize,
    call: Call,
    page: &[u8],
    buf: &mut [u8],
) -> Served
    ensures served_as { (h : History) → StandsAt h store area.old → ServedAs h (call_of call lent page.now (length buf.old)) result area.new }
    ensures refused_same { accepted result.answer ≡ false → result.store ≡ store }
    ensures buf_after { buf.new ≡ buffer_after (model store) call buf.old }
{
    match call {
        Call::Insert(name) => insert(store, area, lent, name, page),
        Call::Delete(name) => calls::delete(store, name),
        Call::Step => step(store, area, lent),
        Call::Confirm => calls::confirm(store, buf),
    }
}
