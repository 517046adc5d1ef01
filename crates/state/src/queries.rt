// What a sound value tells: its footprint and volume, where the objects lie now, and what its flush does next.
ghost use Rattle.std.specs.Prelude.{◌≡◌, ◌+◌, ◌*◌, ◌≤◌, ◌<◌, IfSome};
ghost use Rattle.rules.specs.House.{share, most_objects};
ghost use Rattle.rules.specs.Classes.{volume};
ghost use Rattle.rules.specs.Flush.{plan, ahead, at_wait};
ghost use Rattle.rules.specs.Stores.{start_in, footprint_at, held_by, list_now, ahead_of};
ghost use Rattle.rules.specs.Calls.{next_move, last_ahead};
ghost use Rattle.edits.specs.Edits.{objects};
ghost use Rattle.layout.specs.Layout.{Bounded};
ghost use Rattle.plan.specs.Turns.{moves_of};
ghost use Rattle.state.specs.Model.{old_count, flush_of, model_of};
ghost use Rattle.state.specs.Tests.{layout_in, moved_by};

use crate::running::{ahead_by, layout_in, sizes_of};
use crate::sound::rests;
use crate::{Checked, Flushing, Onward, State};
use edits::Columns;
use layout::Layout;
use plan::places::places_now;
use plan::waits::run_ends;

// The number of objects at a flush's start: all, but for one that is being stored.
fn old_count(s: State) -> usize
    ensures { result ≡ old_count s }
{
    if !rests(s.flush) && s.flush.deleted == 0 {
        s.count.saturating_sub(1)
    } else {
        s.count
    }
}

// The layout of the running flush. The objects of its start are some of those that count, and these are few.
pub fn layout_now(f: Flushing) -> Layout
    ensures value { result ≡ layout_in f.state (old_count f.state) }
    ensures bounded { Bounded result }
    ensures count_bound { (old_count f.state ≤ f.state.count) × (f.state.count ≤ most_objects) }
{
    layout_in(f.state, old_count(f.state))
}

// The footprint.
pub fn footprint(c: Checked) -> u32
    ensures { result ≡ footprint_at share (model_of c.state) (model_of c.state).stage }
{
    let state = c.state;
    if rests(state.flush) {
        let sizes = sizes_of(state.regions);
        return leaves::segments::footprint(&sizes) as u32;
    }
    layout_now(Flushing { state }).end
}

// The live volume.
pub fn volume(c: Checked) -> u64
    ensures { result ≡ volume (held_by (model_of c.state)) }
{
    let s = c.state;
    sound_limits::volumes::volume(&s.objects.lens[..s.count])
}

// The objects at their places after the moves made.
fn moved_by(s: State, l: Layout, old: usize) -> Columns
    requires le_count { (old ≤ s.count) × (s.count ≤ most_objects) }
    requires bounded { Bounded l }
    ensures { objects result s.count ≡ moved_by s l old }
{
    let places = places_now(
        &l.kinds,
        s.objects.places,
        &l.middles,
        &l.finals,
        old,
        s.count,
        s.flush.made,
    );
    Columns {
        places,
        ..s.objects
    }
}

// The objects at their places now.
pub fn list_now(c: Checked) -> Columns
    ensures { objects result c.state.count ≡ list_now share (model_of c.state) }
{
    let state = c.state;
    if rests(state.flush) {
        return state.objects;
    }
    let l = layout_now(Flushing { state });
    moved_by(state, l, old_count(state))
}

// What the running flush does next.
pub fn onward(f: Flushing) -> Onward
    requires { f.state.flush.made ≤ 4 * most_objects }
    ensures turn_value { next_move (ahead_of share (model_of f.state) (flush_of f.state))
        ≡ moves_of f.state.objects.names f.state.objects.lens result.turn }
    ensures waits_value { result.waits
        ≡ at_wait (ahead (plan share (start_in (model_of f.state) (flush_of f.state))) (f.state.flush.made + 1)) }
    ensures index_lt_count { IfSome result.turn (λ t. t.index < f.state.count) }
{
    let s = f.state;
    let l = layout_now(f);
    let old = old_count(s);
    let now = ahead_by(s, l, old, s.flush.made);
    let made = s.flush.made + 1;
    let waits = run_ends(ahead_by(s, l, old, made), made);
    Onward {
        turn: now.next,
        waits,
    }
}

// Only the last checkpoint of the running flush is ahead.
pub fn is_last(f: Flushing) -> bool
    ensures { result ≡ last_ahead (ahead_of share (model_of f.state) (flush_of f.state)) }
{
    let s = f.state;
    let l = layout_now(f);
    let made = s.flush.made;
    made == ahead_by(s, l, old_count(s), made).total
}
