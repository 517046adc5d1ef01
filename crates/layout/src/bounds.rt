// The new sizes of a flush, and its numbers.
ghost use Rattle.std.specs.Prelude.{◌≡◌, cond, ◌≤◌, ◌<◌, length, ltb};
ghost use Rattle.rules.specs.House.{share, classes, most_objects};
ghost use Rattle.rules.specs.Words.{word_values};
ghost use Rattle.rules.specs.Regions.{col, span, up_from, buffer_size};
ghost use Rattle.layout.specs.Layout.{classes_of, sizes_by, limit_by, goal_by, new_sizes};

use crate::Sizes;
use crate::volumes::{Volumes, tally};
use leaves::segments::footprint;
use rules::house::{COLUMN, OBJECTS, SHARE};
use std::array;

// The new size of a class.
fn size_at<'a>(sizes: &'a Sizes, b: u8, volumes: &'a Volumes, class: usize) -> u32
    requires class_le_classes { class ≤ classes }
    ensures { result ≡ cond (ltb class b) (col sizes.now.column class) (col volumes.now.of_keys class) }
{
    if class < usize::from(b) {
        sizes.column[class]
    } else {
        volumes.of_keys[class] as u32
    }
}

// The new sizes, from the volumes of the classes.
fn rebound<'a>(sizes: &'a Sizes, b: u8, volumes: &'a Volumes) -> [u32; COLUMN]
    ensures { result ≡ sizes_by sizes.now.column b volumes.now.of_keys }
{
    array::from_fn(|class| size_at(sizes, b, volumes, class))
}

// The new sizes, from the classes of the objects.
pub fn new_sizes<'a>(sizes: &'a Sizes, b: u8, class: &'a [u8; OBJECTS], lens: &'a [u16]) -> Sizes
    requires objects_few { length lens.now ≤ most_objects }
    requires class_value { class.now ≡ classes_of lens.now (length lens.now) }
    ensures { result.column ≡ new_sizes sizes.now.column b lens.now (length lens.now) }
{
    let volumes = tally(class, lens);
    Sizes {
        column: rebound(sizes, b, &volumes),
    }
}

// The old buffers from class b on.
fn buffers_from(sizes: &Sizes, b: u8) -> u64
    requires b_le_classes { b ≤ classes }
    ensures value { result ≡ span (buffer_size share sizes.now.column) b (up_from b) }
    ensures upper_bound { result ≤ 234881024 }
{
    sizes.column[usize::from(b)..]
        .iter()
        .map(|size| u64::from(*size) / SHARE)
        .sum()
}

// What a run may take: the old buffers from class b on, and the length of the longest object.
pub fn limit_of(sizes: &Sizes, b: u8, longest: u64) -> u32
    requires b_le_classes { (b ≤ classes) × (longest < word_values) }
    ensures value { result ≡ limit_by sizes.now.column b longest }
    ensures upper_bound { result ≤ 268435456 }
{
    (buffers_from(sizes, b) + longest) as u32
}

// Where overflow starts.
pub fn goal_of<'a>(sizes: &'a Sizes, news: &'a Sizes, limit: u32) -> u32
    requires limit_bound { limit ≤ 268435456 }
    ensures value { result ≡ goal_by sizes.now.column news.now.column limit }
    ensures upper_bound { result ≤ 1073741824 }
{
    let end = footprint(&sizes.column).max(footprint(&news.column));
    end as u32 + limit
}
