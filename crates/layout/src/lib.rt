// What a flush needs beside its start, from the columns, in a fixed number of passes over the objects.
// The functions here serve the crates above and are no entry points: what they require of lengths, counts and sizes a sound store gives.
#![tactic(auto)]

mod bounds;
mod keys;
mod places;
mod volumes;

ghost use Rattle.std.specs.Prelude.{◌≡◌, ℕ, ◌+◌, ◌≤◌, ◌<◌, length, get_or};
ghost use Rattle.rules.specs.House.{classes, most_objects};
ghost use Rattle.rules.specs.Columns.{of_overflow};
ghost use Rattle.layout.specs.Layout.{Small, slot_count, classes_of, slots_of, layout_by, layout_of, Bounded};

use crate::bounds::{goal_of, limit_of, new_sizes};
use crate::keys::{OF_OVERFLOW, OF_PAYLOAD, kinds_of, measure, slots_of};
use crate::places::{finals_of, middles_of};
use crate::volumes::tally;
use rules::house::{COLUMN, OBJECTS};

// The payload sizes of the classes. All are small enough for sums of them.
#[derive(Clone, Copy)]
pub struct Sizes {
    pub column: [u32; COLUMN],
    ghost small: { Small column },
}

// What a flush needs: the kind of each object, where it lies between the phases and at the end, the new sizes, what a run may
// take, where a new object goes, and where overflow ends.
#[derive(Clone, Copy)]
pub struct Layout {
    pub kinds: [u8; OBJECTS],
    pub middles: [u32; OBJECTS],
    pub finals: [u32; OBJECTS],
    pub sizes: [u32; COLUMN],
    pub limit: u32,
    pub next: u32,
    pub end: u32,
}

// All that a flush needs, from what a run may take, the kinds and slots of the objects and the new sizes.
fn layout_by<'a>(
    sizes: &'a Sizes,
    limit: u32,
    lens: &'a [u16],
    old: usize,
    kinds: [u8; OBJECTS],
    slots: [u8; OBJECTS],
    news: Sizes,
) -> Layout
    requires old_some { (old ≤ length lens.now) × (length lens.now ≤ most_objects) × (limit ≤ 268435456) }
    requires kinds_few { (k : ℕ) → get_or kinds k 0 ≤ of_overflow }
    requires slots_few { (k : ℕ) → get_or slots k 0 < slot_count }
    requires slots_value { slots ≡ slots_of kinds (classes_of lens.now (length lens.now)) (length lens.now) }
    requires kinds_len { (length kinds ≡ most_objects) × (length news.column ≡ 1 + classes) }
    ensures value { result ≡ layout_by sizes.now.column limit lens.now old (length lens.now) kinds news.column }
    ensures bounded { Bounded result }
{
    let goal = goal_of(sizes, &news, limit);
    let before = tally(&kinds, &lens[..old]);
    let volumes = tally(&kinds, lens);
    Layout {
        kinds,
        middles: middles_of(&kinds, lens, volumes.of_keys[usize::from(OF_PAYLOAD)], goal),
        finals: finals_of(&slots, lens, &news),
        sizes: news.column,
        limit,
        next: goal + before.of_keys[usize::from(OF_OVERFLOW)] as u32,
        end: goal + volumes.of_keys[usize::from(OF_OVERFLOW)] as u32,
    }
}

// All that a flush needs, from its start: the lengths of all objects, and the places of the old ones.
pub fn layout_of<'a>(
    sizes: &'a Sizes,
    b: u8,
    places: &'a [u32],
    lens: &'a [u16],
    old: usize,
) -> Layout
    requires old_some { (old ≤ length lens.now) × (length lens.now ≤ most_objects) × (old ≤ length places.now) × (b ≤ classes) }
    ensures value { result ≡ layout_of sizes.now.column b places.now lens.now old (length lens.now) }
    ensures bounded { Bounded result }
{
    let measured = measure(lens);
    let kinds = kinds_of(sizes, b, &measured.classes, places, lens, old);
    let news = new_sizes(sizes, b, &measured.classes, lens);
    let slots = slots_of(&kinds, &measured.classes, lens.len());
    let limit = limit_of(sizes, b, measured.longest);
    layout_by(sizes, limit, lens, old, kinds, slots, news)
}
