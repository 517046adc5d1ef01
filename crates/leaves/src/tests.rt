// The test of an area's length, which several crates make.
ghost use Rattle.std.specs.Prelude.{◌≡◌};
ghost use Rattle.rules.specs.House.{area_fits};

use rules::house::{LEAST_AREA, MOST_AREA};

// An area's length is in its limits.
pub fn area_fits(area: usize) -> bool
    ensures { result ≡ area_fits area }
{
    (LEAST_AREA..=MOST_AREA).contains(&area)
}
