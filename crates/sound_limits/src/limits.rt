// Area, number of objects, names, lengths and volume are in their limits.
ghost use Rattle.std.specs.Prelude.{◌≡◌, List, ℕ, length};
ghost use Rattle.rules.specs.House.{share};
ghost use Rattle.rules.specs.Columns.{listed};
ghost use Rattle.rules.specs.Sound.{each, object_fits, limits_hold};
ghost use Rattle.sound_limits.specs.Limits.{called};

use crate::names::names_differ;
use crate::volumes::within_quota;
use leaves::tests::area_fits;
use rules::house::{LONGEST, OBJECTS};

// A name and a length are in their limits.
fn object_fits(name: u16, len: u16) -> bool
    ensures { result ≡ object_fits (called name len) }
{
    1 <= name && 1 <= len && u32::from(len) <= LONGEST
}

// Each of the objects has its name and length in their limits.
fn objects_fit<'a>(names: &'a [u16], lens: &'a [u16]) -> bool
    requires { length names.now ≡ length lens.now }
    ensures { (places : List ℕ) → result ≡ each object_fits (listed names.now places lens.now 0 (length lens.now)) }
{
    names
        .iter()
        .zip(lens)
        .all(|(name, len)| object_fits(*name, *len))
}

// Area, number of objects, names, lengths and volume are in their limits, and names differ.
pub fn limits_hold<'a>(area: u32, names: &'a [u16], lens: &'a [u16]) -> bool
    requires { length names.now ≡ length lens.now }
    ensures { (places : List ℕ) → result ≡ limits_hold share area (listed names.now places lens.now 0 (length lens.now)) }
{
    area_fits(area as usize)
        && lens.len() <= OBJECTS
        && objects_fit(names, lens)
        && names_differ(names)
        && within_quota(area, lens, 0)
}
