// Lengths: their classes, their sum, and the quota of it.
ghost use Rattle.std.specs.Prelude.{◌≡◌, ◌≤◌, length};
ghost use Rattle.rules.specs.Words.{word_values};
ghost use Rattle.rules.specs.House.{share, longest, quota_of};
ghost use Rattle.rules.specs.Classes.{class_of};
ghost use Rattle.rules.specs.Columns.{sum_of};

use rules::house::{CLASSES, LONGEST, SHARE};

// The bounds of the classes, the least length of each: class i has the lengths from 2^(i - 1) on and below 2^i.
const BOUNDS: [u16; CLASSES] = [1, 2, 4, 8, 16, 32, 64, 128, 256, 512, 1024, 2048];

// The class of a length: the number of bounds that are at most the length. Lengths beyond the last class get one class more.
pub fn class_of(len: u16) -> u8
    ensures { result ≡ class_of len }
{
    match BOUNDS.iter().position(|bound| len < *bound) {
        Some(class) => class as u8,
        None if LONGEST < len as u32 => BOUNDS.len() as u8 + 1,
        None => BOUNDS.len() as u8,
    }
}

// The quota of live volume in an area of this length.
pub fn quota(area: u32) -> u32
    ensures { result ≡ quota_of share longest area }
{
    let spare = u64::from(area.saturating_sub(2 * LONGEST));
    ((SHARE - 1) * spare / (SHARE + 3)) as u32
}

// The sum of a column of lengths.
pub fn sum_of(lens: &[u16]) -> u64
    requires { length lens.now ≤ word_values }
    ensures { result ≡ sum_of lens.now }
{
    lens.iter().map(|len| u64::from(*len)).sum()
}
