// The places of objects between the phases and at the end.
ghost use Rattle.std.specs.Prelude.{◌≡◌, ℕ, ◌≤◌, ◌<◌, length, get_or};
ghost use Rattle.rules.specs.House.{most_objects};
ghost use Rattle.rules.specs.Columns.{of_overflow};
ghost use Rattle.layout.specs.Layout.{slot_count, places_by, middle_starts, home_at, homes_by, finals_by};

use crate::Sizes;
use crate::keys::{OF_OVERFLOW, OF_PAYLOAD, SLOTS};
use crate::volumes::{Volumes, place, tally};
use leaves::segments::starts;
use rules::house::{OBJECTS, STARTS};
use std::array;

// Where the kinds start between the phases.
fn middle_starts(volume: u64, goal: u64) -> [u64; SLOTS]
    ensures { result ≡ middle_starts volume goal }
{
    let mut out = [0u64; SLOTS];
    out[usize::from(OF_PAYLOAD)] = goal.saturating_sub(volume);
    out[usize::from(OF_OVERFLOW)] = goal;
    out
}

// The places between the phases, from the volume of the payload objects.
pub fn middles_of<'a>(
    kinds: &'a [u8; OBJECTS],
    lens: &'a [u16],
    volume: u64,
    goal: u32,
) -> [u32; OBJECTS]
    requires objects_few { (length lens.now ≤ most_objects) × (goal ≤ 1073741824) }
    requires kinds_few { (k : ℕ) → get_or kinds.now k 0 ≤ of_overflow }
    ensures { result ≡ places_by kinds.now lens.now (length lens.now) (middle_starts volume goal) }
{
    place(kinds, lens, middle_starts(volume, u64::from(goal)))
}

// Where a slot starts at the end.
fn home_at<'a>(starts: &'a [u64; STARTS], volumes: &'a Volumes, slot: usize) -> u64
    requires slot_lt_slot_count { slot < slot_count }
    requires starts_bound { (k : ℕ) → get_or starts.now k 0 ≤ 1073741824 }
    ensures { result ≡ home_at starts.now volumes.now.of_keys slot }
{
    if slot < STARTS {
        0
    } else if slot < 2 * STARTS {
        starts[slot - STARTS]
    } else {
        starts[slot - 2 * STARTS] + volumes.of_keys[slot - STARTS]
    }
}

// Where the slots start at the end.
fn homes<'a>(news: &'a Sizes, volumes: &'a Volumes) -> [u64; SLOTS]
    ensures { result ≡ homes_by news.now.column volumes.now.of_keys }
{
    let starts = starts(&news.column);
    array::from_fn(|slot| home_at(&starts, volumes, slot))
}

// The places at the end.
pub fn finals_of<'a>(slots: &'a [u8; OBJECTS], lens: &'a [u16], news: &'a Sizes) -> [u32; OBJECTS]
    requires objects_few { length lens.now ≤ most_objects }
    requires slots_few { (k : ℕ) → get_or slots.now k 0 < slot_count }
    ensures { result ≡ finals_by slots.now lens.now (length lens.now) news.now.column }
{
    let volumes = tally(slots, lens);
    place(slots, lens, homes(news, &volumes))
}
