// What a plan has ahead: its next move, and the number of its moves.
ghost use Rattle.std.specs.Prelude.{◌≡◌, ◌≤◌, ◌<◌, length, IfSome};
ghost use Rattle.plan.specs.Turns.{turn_of, nth_turn};
ghost use Rattle.plan.specs.Courses.{phase_along, later_along, turn_along, ahead_along};

use crate::courses::Course;
use crate::cuts::{begins, room_after};
use crate::phases::{count_in, index_at, lifting, packing, settling, spreading, total_moves};
use crate::{Ahead, Phase, Turn};

// The turn of an object, from its place in one column to its place in another.
fn turn_of<'a>(from: &'a [u32], to: &'a [u32], index: usize, begins: bool) -> Turn
    requires { (index < length from.now) × (index < length to.now) }
    ensures { result ≡ turn_of from.now to.now index begins }
{
    Turn {
        index,
        from: from[index],
        to: to[index],
        begins,
    }
}

// Move number `rank` of a phase, whose objects go from their places in one column to those in another.
fn turn_in<'a>(
    course: Course<'a>,
    from: &'a [u32],
    to: &'a [u32],
    phase: Phase,
    rank: u32,
) -> Option<Turn>
    requires { (phase.count ≤ course.n) × (course.n ≤ length from.now) × (course.n ≤ length to.now) }
    ensures { result ≡ nth_turn (phase_along course.entry from.now to.now phase) rank }
{
    let Course {
        kinds,
        lens,
        limit,
        ..
    } = course;
    let Phase {
        kind,
        falling,
        count,
        cut,
    } = phase;
    let mut room: u64 = 0;
    let mut skip = rank;
    for i in 0..count {
        let j = index_at(falling, count, i);
        if kinds[j] != kind {
            continue;
        }
        let target = to[j];
        let len = lens[j];
        if skip == 0 {
            return Some(turn_of(from, to, j, begins(cut, room, target, len)));
        }
        room = room_after(cut, limit, room, target, len);
        skip -= 1;
    }
    None
}

// The next move after `made` moves.
fn turn_at<'a>(course: Course<'a>, made: u32) -> Option<Turn>
    ensures value { result ≡ turn_along course.entry made }
    ensures index_lt_n { IfSome result (λ t. t.index < course.entry.n) }
{
    let first = lifting(course.old);
    let one = count_in(course.kinds, first);
    if made < one {
        return turn_in(course, course.starts, course.middles, first, made);
    }
    let second = packing(course.n);
    let two = count_in(course.kinds, second);
    let left = made - one;
    if left < two {
        return turn_in(course, course.starts, course.middles, second, left);
    }
    turn_later(course, left - two)
}

// Move number `rank` of phases 3 and 4.
fn turn_later<'a>(course: Course<'a>, rank: u32) -> Option<Turn>
    ensures { result ≡ nth_turn (later_along course.entry) rank }
{
    let third = spreading(course.n);
    let three = count_in(course.kinds, third);
    if rank < three {
        return turn_in(course, course.middles, course.finals, third, rank);
    }
    turn_in(
        course,
        course.middles,
        course.finals,
        settling(course.n),
        rank - three,
    )
}

// What is ahead after `made` moves.
pub fn ahead_at<'a>(course: Course<'a>, made: u32) -> Ahead
    ensures value { result ≡ ahead_along course.entry made }
    ensures index_lt_n { IfSome result.next (λ t. t.index < course.entry.n) }
{
    Ahead {
        total: total_moves(course.kinds, course.old, course.n),
        next: turn_at(course, made),
    }
}
