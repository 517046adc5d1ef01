// The calls that change the store: open, insert, delete, step, confirm.
ghost use Rattle.std.specs.Prelude.{◌≡◌, true, false, [], length};
ghost use Rattle.rules.specs.House.{share};
ghost use Rattle.rules.specs.Regions.{no_regions};
ghost use Rattle.rules.specs.Stores.{resting_at, list_now};
ghost use Rattle.rules.specs.Sound.{sound};
ghost use Rattle.mapform.specs.Maps.{map_of, put_into};
ghost use Rattle.state.specs.Model.{model_of};
ghost use Rattle.rules.specs.Answers.{accepted};
ghost use Rattle.rules.specs.Calls.{written, open_store, open_answer, insert_of, delete_of, step_of, confirm_of};
ghost use Rattle.store.specs.Served.{model, map_into};

use crate::{Served, Store};
use edits::Columns;
use leaves::tests::area_fits;
use refusals::{confirm_answer, delete_answer, insert_answer, step_answer};
use rules::house::{COLUMN, OBJECTS};
use rules::{Answer, Name};
use state::queries::list_now;
use state::sound::rests;
use state::{Checked, Flush, Flushing, Regions, State};

// The empty store of an area of this length; of length 0 that of a refused opening.
fn empty(area: u32) -> Store
    ensures { model result ≡ resting_at area no_regions [] }
{
    Store {
        state: State {
            area,
            regions: Regions {
                sizes: [0; COLUMN],
                useds: [0; COLUMN],
                lowests: [0; COLUMN],
            },
            objects: Columns {
                names: [0; OBJECTS],
                places: [0; OBJECTS],
                lens: [0; OBJECTS],
            },
            count: 0,
            flush: Flush {
                boundary: 0,
                made: 0,
                deleted: 0,
                due: false,
            },
        },
    }
}

// Opens a store for an area of this length. A refused opening hands back a store that answers 1 to everything.
pub fn open(area: usize) -> Served
    ensures store_value { model result.store ≡ open_store area }
    ensures answer_value { result.answer ≡ open_answer area }
{
    if !area_fits(area) {
        return Served {
            store: empty(0),
            answer: Answer::WrongArea,
        };
    }
    Served {
        store: empty(area as u32),
        answer: Answer::Done,
    }
}

// Stores a page under a name.
pub fn insert(store: Store, area: &mut [u8], name: Name, page: &[u8]) -> Served
    ensures answer_value { result.answer ≡ (insert_of (model store) (length area.old) name.0 page.now).answer }
    ensures store_value { model result.store ≡ (insert_of (model store) (length area.old) name.0 page.now).store }
    ensures refused_same { accepted result.answer ≡ false → result.store ≡ store }
    ensures area_after { area.new ≡ written area.old (insert_of (model store) (length area.old) name.0 page.now).write }
{
    let s = store.state;
    if let Err(answer) = insert_answer(s, area.len(), name.0, page) {
        return Served { store, answer };
    }
    let begun = requests::inserts::insert(s, area, name.0, page);
    Served {
        store: Store { state: begun.state },
        answer: begun.answer,
    }
}

// Deletes the page of a name.
pub fn delete(store: Store, name: Name) -> Served
    ensures answer_value { result.answer ≡ (delete_of (model store) name.0).answer }
    ensures store_value { model result.store ≡ (delete_of (model store) name.0).store }
    ensures refused_same { accepted result.answer ≡ false → result.store ≡ store }
{
    let s = store.state;
    if let Err(answer) = delete_answer(s, name.0) {
        return Served { store, answer };
    }
    let begun = requests::deletes::delete(s, name.0);
    Served {
        store: Store { state: begun.state },
        answer: begun.answer,
    }
}

// Makes the next move of a running flush.
pub fn step(store: Store, area: &mut [u8]) -> Served
    ensures answer_value { result.answer ≡ (step_of (model store) area.old).answer }
    ensures store_value { model result.store ≡ (step_of (model store) area.old).store }
    ensures refused_same { accepted result.answer ≡ false → result.store ≡ store }
    ensures area_after { area.new ≡ written area.old (step_of (model store) area.old).write }
{
    let state = match step_answer(store.state, area.len()) {
        Ok(checked) => checked.state,
        Err(answer) => return Served { store, answer },
    };
    if rests(state.flush) {
        return Served {
            store,
            answer: Answer::Done,
        };
    }
    let moved = flushing::step(Flushing { state }, area);
    Served {
        store: Store { state: moved },
        answer: Answer::Running,
    }
}

// Writes the map of the objects at their places now to the buffer's front.
fn write_list(c: Checked, buf: &mut [u8])
    ensures { buf.new ≡ put_into (map_of (list_now share (model_of c.state))) buf.old }
{
    let list = list_now(c);
    maps::write_map(&list.names, &list.places, &list.lens, c.state.count, buf);
}

// Writes the map, and takes a checkpoint that is due for confirmed.
pub fn confirm(store: Store, buf: &mut [u8]) -> Served
    ensures answer_value { result.answer ≡ (confirm_of (model store) (length buf.old)).answer }
    ensures store_value { model result.store ≡ (confirm_of (model store) (length buf.old)).store }
    ensures refused_same { accepted result.answer ≡ false → result.store ≡ store }
    ensures buf_after { buf.new ≡ map_into (model store) buf.old }
{
    let checked = match confirm_answer(store.state, buf.len()) {
        Ok(checked) => checked,
        Err(answer) => return Served { store, answer },
    };
    write_list(checked, buf);
    let confirmed = flushing::confirm(checked);
    Served {
        store: Store { state: confirmed },
        answer: Answer::Done,
    }
}
