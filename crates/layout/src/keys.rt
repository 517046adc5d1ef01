// The keys of objects: class, kind, and slot, which is both in one. And the length of the longest, found with the classes.
ghost use Rattle.std.specs.Prelude.{◌≡◌, cond, ◌&&◌, ℕ, ◌+◌, ◌≤◌, ◌<◌, length, get_or, leb};
ghost use Rattle.rules.specs.House.{share, classes, most_objects};
ghost use Rattle.rules.specs.Words.{word_values};
ghost use Rattle.rules.specs.Classes.{class_of};
ghost use Rattle.rules.specs.Regions.{table, start_of};
ghost use Rattle.rules.specs.Columns.{of_payload, of_overflow};
ghost use Rattle.layout.specs.Layout.{classes_of, longest_by, old_kind, kinds_of, slots_of};

use crate::Sizes;
use leaves::lengths::class_of;
use leaves::segments::{entry_at, starts};
use rules::house::{OBJECTS, STARTS};

// The kinds of an object in a flush: it stays, it lies in a flushed payload, or it goes through overflow. Numbers and no enum, since a
// kind is an index into tables, and crosses to the plan as a column of numbers.
pub const STAYS: u8 = 0;

pub const OF_PAYLOAD: u8 = 1;

pub const OF_OVERFLOW: u8 = 2;

// A slot for each kind and each class that a length can have.
pub const SLOTS: usize = 3 * STARTS;

// What the lengths say: the class of each object, and the length of the longest.
#[derive(Clone, Copy)]
pub struct Measured {
    pub classes: [u8; OBJECTS],
    pub longest: u64,
}

// One pass over the lengths.
pub fn measure(lens: &[u16]) -> Measured
    requires { length lens.now ≤ most_objects }
    ensures classes_value { result.classes ≡ classes_of lens.now (length lens.now) }
    ensures longest_value { (result.longest ≡ longest_by lens.now 0 (length lens.now)) × (result.longest < word_values) }
{
    let mut classes = [0u8; OBJECTS];
    let mut longest: u64 = 0;
    for (i, len) in lens.iter().enumerate() {
        classes[i] = class_of(*len);
        longest = longest.max(u64::from(*len));
    }
    Measured { classes, longest }
}

// The kind of an object in a flushed region: whether it lies in the payload that starts here.
fn flushed_kind(start: u64, size: u32, at: u32, len: u16) -> u8
    requires { start ≤ 4294967296 }
    ensures { result ≡ cond (leb start at && leb (at + len) (start + size)) of_payload of_overflow }
{
    let place = u64::from(at);
    if start <= place && place + u64::from(len) <= start + u64::from(size) {
        OF_PAYLOAD
    } else {
        OF_OVERFLOW
    }
}

// The kind of an old object.
fn old_kind(sizes: &Sizes, starts: &[u64; STARTS], b: u8, class: u8, at: u32, len: u16) -> u8
    requires b_le_classes { (b ≤ classes) × (class ≡ class_of len) }
    requires starts_value { starts.now ≡ table (start_of share sizes.now.column) 0 (2 + classes) }
    ensures { result ≡ old_kind sizes.now.column b at len }
{
    if u64::from(at) < starts[usize::from(b)] {
        return STAYS;
    }
    let class = usize::from(class);
    flushed_kind(starts[class], entry_at(&sizes.column, class), at, len)
}

// The kind of each object; behind the old ones all are of overflow.
pub fn kinds_of<'a>(
    sizes: &'a Sizes,
    b: u8,
    class: &'a [u8; OBJECTS],
    places: &'a [u32],
    lens: &'a [u16],
    old: usize,
) -> [u8; OBJECTS]
    requires le_most_objects { (old ≤ most_objects) × (old ≤ length places.now) × (old ≤ length lens.now) × (b ≤ classes) }
    requires classes_known { (j : ℕ) → j < old → get_or class.now j 0 ≡ class_of (get_or lens.now j 0) }
    ensures { result ≡ kinds_of sizes.now.column b places.now lens.now old }
{
    let starts = starts(&sizes.column);
    let mut out = [OF_OVERFLOW; OBJECTS];
    for i in 0..old {
        out[i] = old_kind(sizes, &starts, b, class[i], places[i], lens[i]);
    }
    out
}

// The slot of each object.
pub fn slots_of(kinds: &[u8; OBJECTS], class: &[u8; OBJECTS], n: usize) -> [u8; OBJECTS]
    requires n_le_most_objects { n ≤ most_objects }
    requires kinds_few { (k : ℕ) → get_or kinds.now k 0 ≤ of_overflow }
    requires classes_few { (k : ℕ) → get_or class.now k 0 ≤ 1 + classes }
    ensures { result ≡ slots_of kinds.now class.now n }
{
    let mut out = [0u8; OBJECTS];
    for i in 0..n {
        out[i] = STARTS as u8 * kinds[i] + class[i];
    }
    out
}
