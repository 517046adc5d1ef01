// The running flush: its layout, what it has ahead, and whether the value agrees with its plan.
ghost use Rattle.std.specs.Prelude.{◌≡◌, ◌≤◌, ◌<◌, IfSome};
ghost use Rattle.rules.specs.House.{most_objects};
ghost use Rattle.layout.specs.Layout.{Bounded};
ghost use Rattle.state.specs.Model.{sizes_in};
ghost use Rattle.state.specs.Tests.{Ready, layout_in, new_at, ahead_by, plan_in};

use crate::{Regions, State};
use layout::{Layout, Sizes, layout_of};
use plan::Ahead;
use plan::courses::Course;
use plan::next::ahead_at;
use plan::waits::may_be_due;
use rules::house::COLUMN;

// The payload sizes; the one of class 0 counts for nothing.
#[tactic(auto, unfolding(crate::specs::Model::sizes_in))]
pub fn sizes_of(r: Regions) -> [u32; COLUMN]
    ensures { result ≡ sizes_in r }
{
    let mut sizes = r.sizes;
    sizes[0] = 0;
    sizes
}

// The layout of the flush.
pub fn layout_in(s: State, old: usize) -> Layout
    requires { Ready s old }
    ensures value { result ≡ layout_in s old }
    ensures bounded { Bounded result }
{
    let column = sizes_of(s.regions);
    let sizes = Sizes { column };
    layout_of(
        &sizes,
        s.flush.boundary,
        &s.objects.places,
        &s.objects.lens[..s.count],
        old,
    )
}

// A new object lies at this place.
fn new_at(s: State, old: usize, next: u32) -> bool
    requires { s.count ≤ most_objects }
    ensures { result ≡ new_at s old next }
{
    s.count <= old || s.objects.places[old] == next
}

// What is ahead after so many moves, by the columns of a layout.
pub fn ahead_by(s: State, l: Layout, old: usize, made: u32) -> Ahead
    requires le_count { (old ≤ s.count) × (s.count ≤ most_objects) }
    requires bounded { Bounded l }
    ensures value { result ≡ ahead_by s l old made }
    ensures index_lt_count { IfSome result.next (λ t. t.index < s.count) }
{
    let course = Course {
        kinds: &l.kinds,
        starts: &s.objects.places,
        middles: &l.middles,
        finals: &l.finals,
        lens: &s.objects.lens,
        limit: l.limit,
        old,
        n: s.count,
    };
    ahead_at(course, made)
}

// A new object lies where it must, and a checkpoint is due, or not, as the plan has it.
pub(crate) fn plan_fits(s: State, old: usize) -> bool
    requires { Ready s old }
    ensures { result ≡ plan_in s old }
{
    let l = layout_in(s, old);
    let made = s.flush.made;
    new_at(s, old, l.next) && may_be_due(ahead_by(s, l, old, made), made, s.flush.due)
}
