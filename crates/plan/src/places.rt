// The places now: those at a flush's start, changed by the moves made.
ghost use Rattle.std.specs.Prelude.{◌≡◌, ◌≤◌, length};
ghost use Rattle.rules.specs.House.{most_objects};
ghost use Rattle.plan.specs.Turns.{phase_moved, left_after, places_after};

use crate::Phase;
use crate::phases::{index_at, lifting, packing, settling, spreading};
use rules::house::OBJECTS;

// The first `made` moves of a phase are made; how many are left for what comes behind it.
fn move_in<'a>(
    kinds: &'a [u8],
    to: &'a [u32],
    phase: Phase,
    made: u32,
    places: &mut [u32; OBJECTS],
) -> u32
    requires { (phase.count ≤ length kinds.now) × (phase.count ≤ length to.now) × (phase.count ≤ most_objects) }
    ensures places_after { places.new ≡ phase_moved kinds.now to.now phase made places.old }
    ensures value { result ≡ left_after kinds.now phase made }
{
    let Phase {
        kind,
        falling,
        count,
        ..
    } = phase;
    let mut left = made;
    for i in 0..count {
        let j = index_at(falling, count, i);
        if kinds[j] != kind {
            continue;
        }
        if left == 0 {
            return 0;
        }
        places[j] = to[j];
        left -= 1;
    }
    left
}

// The places after `made` moves. It asks for the columns that it reads and no more, so it takes these and no course.
pub fn places_now<'a>(
    kinds: &'a [u8],
    starts: [u32; OBJECTS],
    middles: &'a [u32],
    finals: &'a [u32],
    old: usize,
    n: usize,
    made: u32,
) -> [u32; OBJECTS]
    requires { (old ≤ n) × (n ≤ most_objects) × (n ≤ length kinds.now) × (n ≤ length middles.now) × (n ≤ length finals.now) }
    ensures { result ≡ places_after kinds.now starts middles.now finals.now old n made }
{
    let mut places = starts;
    let two = move_in(kinds, middles, lifting(old), made, &mut places);
    let three = move_in(kinds, middles, packing(n), two, &mut places);
    let four = move_in(kinds, finals, spreading(n), three, &mut places);
    move_in(kinds, finals, settling(n), four, &mut places);
    places
}
