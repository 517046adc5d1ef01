// The four phases, and the objects that each moves.
ghost use Rattle.std.specs.Prelude.{◌≡◌, ◌≤◌, ◌<◌, length};
ghost use Rattle.rules.specs.House.{most_objects};
ghost use Rattle.plan.specs.Turns.{lifting, packing, spreading, settling, index_at, order, total_moves};

use crate::{Cut, Phase};

// An object of a payload that is flushed.
pub(crate) const OF_PAYLOAD: u8 = 1;

// An object that goes through overflow.
pub(crate) const OF_OVERFLOW: u8 = 2;

// Phase 1: the objects from buffers go to overflow.
pub(crate) fn lifting(old: usize) -> Phase
    ensures { result ≡ lifting old }
{
    Phase {
        kind: OF_OVERFLOW,
        falling: false,
        count: old,
        cut: Cut::Whole,
    }
}

// Phase 2: the payload objects are packed below overflow.
pub(crate) fn packing(n: usize) -> Phase
    ensures { result ≡ packing n }
{
    Phase {
        kind: OF_PAYLOAD,
        falling: true,
        count: n,
        cut: Cut::Volumes,
    }
}

// Phase 3: they go to their final places.
pub(crate) fn spreading(n: usize) -> Phase
    ensures { result ≡ spreading n }
{
    Phase {
        kind: OF_PAYLOAD,
        falling: false,
        count: n,
        cut: Cut::Spans,
    }
}

// Phase 4: the objects in overflow go to theirs.
pub(crate) fn settling(n: usize) -> Phase
    ensures { result ≡ settling n }
{
    Phase {
        kind: OF_OVERFLOW,
        falling: false,
        count: n,
        cut: Cut::Whole,
    }
}

// The index at position i of `count` objects in rising or falling order.
pub(crate) fn index_at(falling: bool, count: usize, i: usize) -> usize
    requires { i < count }
    ensures value { result ≡ index_at falling count i }
    ensures upper_bound { result < count }
{
    if falling {
        return count - 1 - i;
    }
    i
}

// How many objects a phase moves. A number is added at each, whichever its kind is: that goes several at a time.
pub(crate) fn count_in(kinds: &[u8], phase: Phase) -> u32
    requires { (phase.count ≤ length kinds.now) × (phase.count ≤ most_objects) }
    ensures value { result ≡ length (order kinds.now phase) }
    ensures upper_bound { result ≤ most_objects }
{
    let mut found = 0;
    for kind in &kinds[..phase.count] {
        found += u32::from(*kind == phase.kind);
    }
    found
}

// The number of moves of the plan.
pub(crate) fn total_moves(kinds: &[u8], old: usize, n: usize) -> u32
    requires { (old ≤ n) × (n ≤ most_objects) × (n ≤ length kinds.now) }
    ensures { result ≡ total_moves kinds.now old n }
{
    let one = count_in(kinds, lifting(old));
    let two = count_in(kinds, packing(n));
    let three = count_in(kinds, spreading(n));
    let four = count_in(kinds, settling(n));
    one + two + three + four
}
