// An accepted insert: above the top class, into a buffer, or by a flush.
ghost use Rattle.std.specs.Prelude.{◌≡◌, true, ◌<◌, length};
ghost use Rattle.rules.specs.House.{share, most_objects};
ghost use Rattle.rules.specs.Answers.{first};
ghost use Rattle.rules.specs.Calls.{grown, insert_tests, insert_above, insert_into, insert_flush, room_in, inserted, insert_of, written};
ghost use Rattle.rules.specs.declared.Answer.TheVariants.{Done};
ghost use Rattle.edits.specs.Edits.{object};
ghost use Rattle.state.specs.Model.{regions_in, rests, model_of};
ghost use Rattle.requests.specs.Requests.{Passes, Storing, outcome_of};

use crate::flushes::begun;
use crate::regions::{above_top, boundary_for, entered, raised, room, unused_at};
use crate::{Begun, Placed};
use area::write_page;
use edits::edit::{appended, inserted};
use leaves::lengths::class_of;
use leaves::segments::footprint;
use rules::Answer;
use state::running::{layout_in, sizes_of};
use state::{Flush, Regions, State};

// An object stored at rest, with these regions.
fn stored(s: State, t: Regions, name: u16, at: u32, len: u16) -> Placed
    requires { (s.count < most_objects) × (rests s.flush ≡ true) }
    ensures { (model_of result.state ≡ grown (model_of s) (regions_in t) (object name at len)) × (result.at ≡ at) × (result.answer ≡ Done) }
{
    let state = State {
        regions: t,
        objects: inserted(s.objects, s.count, name, at, len),
        count: s.count + 1,
        ..s
    };
    Placed {
        state,
        at,
        answer: Answer::Done,
    }
}

// Above the top class: the object goes to the end of the last region.
fn place_above(s: State, name: u16, page: &[u8]) -> Placed
    requires { Passes s name page.now }
    ensures { outcome_of result page.now ≡ insert_above share (model_of s) name page.now }
{
    let len = page.len() as u16;
    let sizes = sizes_of(s.regions);
    let at = footprint(&sizes) as u32;
    let regions = raised(s.regions, class_of(len), len);
    stored(s, regions, name, at, len)
}

// Into the unused space of buffer j.
fn place_into(s: State, name: u16, page: &[u8], j: u8) -> Placed
    requires passes { Passes s name page.now }
    requires j_value { (j ≡ room_in share (model_of s) (length page.now)) × (0 < j) }
    ensures { outcome_of result page.now ≡ insert_into share (model_of s) name page.now j }
{
    let len = page.len() as u16;
    let at = unused_at(s.regions, j);
    let regions = entered(s.regions, j, class_of(len), len);
    stored(s, regions, name, at, len)
}

// The value with one object more, behind the others, for a flush from this boundary on.
fn storing(s: State, name: u16, at: u32, len: u16, b: u8) -> State
    requires { s.count < most_objects }
    ensures { Storing s name at len b result }
{
    State {
        objects: appended(s.objects, s.count, name, at, len),
        count: s.count + 1,
        flush: Flush {
            boundary: b,
            made: 0,
            deleted: 0,
            due: false,
        },
        ..s
    }
}

// By a flush: the object goes behind what overflow takes from the buffers.
fn place_by_flush(s: State, name: u16, page: &[u8]) -> Placed
    requires { Passes s name page.now }
    ensures { outcome_of result page.now ≡ insert_flush share (model_of s) name page.now }
{
    let len = page.len() as u16;
    let b = boundary_for(s.regions, len);
    let l = layout_in(storing(s, name, 0, len, b), s.count);
    let at = l.next;
    let state = begun(storing(s, name, at, len, b), s.count);
    Placed {
        state,
        at,
        answer: Answer::Running,
    }
}

// The value after an insert, and where the object lies.
fn place(s: State, name: u16, page: &[u8]) -> Placed
    requires { Passes s name page.now }
    ensures { outcome_of result page.now ≡ inserted share (model_of s) name page.now }
{
    let len = page.len() as u16;
    if above_top(s.regions, len) {
        return place_above(s, name, page);
    }
    match room(s.regions, len) {
        Some(j) => place_into(s, name, page, j),
        None => place_by_flush(s, name, page),
    }
}

// An accepted insert.
pub fn insert(s: State, area: &mut [u8], name: u16, page: &[u8]) -> Begun
    requires { first (insert_tests (model_of s) (length area.old) name page.now) ≡ Done }
    ensures state_value { (model_of result.state ≡ (insert_of (model_of s) (length area.old) name page.now).store) × (result.answer ≡ (insert_of (model_of s) (length area.old) name page.now).answer) }
    ensures area_after { area.new ≡ written area.old (insert_of (model_of s) (length area.old) name page.now).write }
{
    let p = place(s, name, page);
    write_page(area, p.at as usize, page);
    Begun {
        state: p.state,
        answer: p.answer,
    }
}
