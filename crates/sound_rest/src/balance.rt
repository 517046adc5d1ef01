// Enough live volume between each two clean classes.
ghost use Rattle.std.specs.Prelude.{◌≡◌, ℕ, ◌≤◌};
ghost use Rattle.rules.specs.House.{classes};
ghost use Rattle.rules.specs.Boundary.{clean};
ghost use Rattle.rules.specs.Regions.{col};
ghost use Rattle.sound_rest.specs.Rest.{regions_of, enough_from, balanced_by};

use leaves::regions::Regions;
use leaves::search::reaches;
use rules::house::COLUMN;

// No buffer numbered `class` or more reaches below it.
fn is_clean(regions: &Regions, class: usize) -> bool
    ensures { result ≡ clean regions.now.useds regions.now.lowests class }
{
    (class..COLUMN).all(|j| !reaches(regions.useds[j], regions.lowests[j], class))
}

// A class is not clean, or from it up to each clean class above, and up to the end, the live volume is at least the payloads less what is used.
fn enough_from<'a>(lives: &'a [u64; COLUMN], regions: &'a Regions, class: usize) -> bool
    requires { (class ≤ classes) × ((c : ℕ) → col lives.now c ≤ 4294967296) }
    ensures { result ≡ enough_from (regions_of regions.now) (col lives.now) class }
{
    if !is_clean(regions, class) {
        return true;
    }
    let mut has: u64 = 0;
    let mut asked: u64 = 0;
    for next in class..COLUMN {
        has += lives[next] + u64::from(regions.useds[next]);
        asked += u64::from(regions.sizes[next]);
        if has < asked && is_clean(regions, next + 1) {
            return false;
        }
    }
    true
}

// There is enough between each two clean classes, and from each clean class up.
pub(crate) fn balanced<'a>(lives: &'a [u64; COLUMN], regions: &'a Regions) -> bool
    requires { (c : ℕ) → col lives.now c ≤ 4294967296 }
    ensures { result ≡ balanced_by (regions_of regions.now) (col lives.now) }
{
    (1..COLUMN).all(|class| enough_from(lives, regions, class))
}
