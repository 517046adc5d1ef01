// The rules at rest.
ghost use Rattle.std.specs.Prelude.{◌≡◌, List, ℕ, ◌<◌, length};
ghost use Rattle.rules.specs.Words.{word_values};
ghost use Rattle.rules.specs.House.{share};
ghost use Rattle.rules.specs.Columns.{listed};
ghost use Rattle.rules.specs.Sound.{rest_rules};
ghost use Rattle.sound_rest.specs.Rest.{regions_of};

use crate::balance::balanced;
use crate::placing::{buffers_fit, objects_lie};
use leaves::regions::Regions;
use sound_limits::volumes::live_volumes;

// The rules at rest hold for the objects, a deleted length counted.
pub fn rest_rules<'a>(
    regions: &'a Regions,
    places: &'a [u32],
    lens: &'a [u16],
    deleted: u16,
) -> bool
    requires { (length places.now ≡ length lens.now) × (length lens.now < word_values) }
    ensures { (names : List ℕ) → result
        ≡ rest_rules share (regions_of regions.now) (listed names places.now lens.now 0 (length lens.now)) deleted }
{
    buffers_fit(regions)
        && objects_lie(regions, places, lens)
        && balanced(&live_volumes(lens, deleted), regions)
}
