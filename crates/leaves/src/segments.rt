// Regions from their columns: the top class, the bounds, and the buffer that takes an object.
ghost use Rattle.std.specs.Prelude.{◌≡◌, ◌+◌, ◌/◌, ◌≤◌, leb};
ghost use Rattle.rules.specs.House.{share, classes};
ghost use Rattle.rules.specs.Regions.{col, table, start_of, footprint, top_class};
ghost use Rattle.leaves.specs.Room.{some_room};

use rules::house::{COLUMN, SHARE, STARTS};

// An entry of a column, 0 beyond its end.
pub fn entry_at(column: &[u32], k: usize) -> u32
    ensures { result ≡ col column.now k }
{
    column.get(k).copied().unwrap_or(0)
}

// The largest class with a payload, or 0. Its bound lets callers index a column.
pub fn top_class(sizes: &[u32; COLUMN]) -> u8
    ensures value { result ≡ top_class sizes.now }
    ensures upper_bound { result ≤ classes }
{
    for class in (1..COLUMN).rev() {
        if 0 < sizes[class] {
            return class as u8;
        }
    }
    0
}

// The size of the region with this payload. Its bound keeps the sum over a column within 64 bits.
fn extent(size: u32) -> u64
    ensures value { result ≡ size + size / share }
    ensures upper_bound { result ≤ 8589934592 }
{
    u64::from(size) + u64::from(size) / SHARE
}

// The end of the last region.
pub fn footprint(sizes: &[u32; COLUMN]) -> u64
    ensures { result ≡ footprint share sizes.now }
{
    sizes.iter().skip(1).map(|size| extent(*size)).sum()
}

// The start of each region, and last the end of the last one.
pub fn starts(sizes: &[u32; COLUMN]) -> [u64; STARTS]
    ensures { result ≡ table (start_of share sizes.now) 0 (2 + classes) }
{
    let mut out = [0u64; STARTS];
    for class in 1..COLUMN {
        out[class + 1] = out[class] + extent(sizes[class]);
    }
    out
}

// A buffer has this many bytes unused.
fn has_room(size: u32, used: u32, len: u16) -> bool
    ensures { result ≡ leb (used + len) (size / share) }
{
    u64::from(used) + u64::from(len) <= u64::from(size) / SHARE
}

// The earliest buffer from this class up to the top class with room. The two columns stand apart, since a caller clears the size of class 0
// before it asks.
pub fn room_for<'a>(
    sizes: &'a [u32; COLUMN],
    useds: &'a [u32; COLUMN],
    class: u8,
    len: u16,
) -> Option<u8>
    ensures { result ≡ some_room share sizes.now useds.now class len }
{
    for j in class..=top_class(sizes) {
        if has_room(sizes[j as usize], useds[j as usize], len) {
            return Some(j);
        }
    }
    None
}
