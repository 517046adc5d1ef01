// How a phase is cut into runs. Room is 0 before a phase's first move, and else 1 more than the volume or the reach that the run has left.
ghost use Rattle.std.specs.Prelude.{◌≡◌, ◌-◌};
ghost use Rattle.plan.specs.Turns.{level, spent, begins, room_after};

use crate::Cut;

// So many bytes, counted as a phase's cut does, and 1 more.
#[tactic(auto, unfolding(crate::specs::Turns::level))]
fn level(cut: Cut, to: u32, bytes: u32) -> u64
    ensures { result ≡ level cut to bytes }
{
    match cut {
        Cut::Whole => 1,
        Cut::Volumes => u64::from(bytes) + 1,
        Cut::Spans => u64::from(to) + u64::from(bytes) + 1,
    }
}

// What is left of a run's room behind an object.
#[tactic(auto, unfolding(crate::specs::Turns::spent))]
fn less(cut: Cut, room: u64, len: u16) -> u64
    ensures { result ≡ room - spent cut len }
{
    match cut {
        Cut::Volumes => room.saturating_sub(u64::from(len)),
        Cut::Whole | Cut::Spans => room,
    }
}

// A move begins a run.
pub(crate) fn begins(cut: Cut, room: u64, to: u32, len: u16) -> bool
    ensures { result ≡ begins cut room to len }
{
    room < level(cut, to, u32::from(len))
}

// The room behind a move.
#[tactic(auto, unfolding(crate::specs::Turns::room_after))]
pub(crate) fn room_after(cut: Cut, limit: u32, room: u64, to: u32, len: u16) -> u64
    ensures { result ≡ room_after cut limit room to len }
{
    if begins(cut, room, to, len) {
        less(cut, level(cut, to, limit), len)
    } else {
        less(cut, room, len)
    }
}
