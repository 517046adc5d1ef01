// The regions, a column for each property, and the boundary of a flush, by the search that 01 describes.
ghost use Rattle.std.specs.Prelude.{◌≡◌};
ghost use Rattle.rules.specs.Boundary.{boundary_of};
ghost use Rattle.leaves.specs.Reached.{lower_reached};

use crate::search::reaches;
use rules::house::COLUMN;

// The regions: payload sizes, used sizes, and lowest classes entered, by class.
#[derive(Clone, Copy)]
pub struct Regions {
    pub sizes: [u32; COLUMN],
    pub useds: [u32; COLUMN],
    pub lowests: [u8; COLUMN],
}

impl Regions {
    // The lower class that the first buffer numbered `class` or more reaches, or `class` where none reaches below it.
    fn lower_reached(&self, class: u8) -> u8
        ensures { result ≡ lower_reached self.now.useds self.now.lowests class }
    {
        for j in class as usize..COLUMN {
            if reaches(self.useds[j], self.lowests[j], class as usize) {
                return self.lowests[j];
            }
        }
        class
    }

    // The largest clean class at most `class`: begin again from a lower class that is reached. 1 ends the search.
    pub fn boundary(&self, class: u8) -> u8
        ensures { result ≡ boundary_of self.now.useds self.now.lowests class }
    {
        if class <= 1 {
            return 1;
        }
        let low = self.lower_reached(class);
        if low < class {
            return self.boundary(low);
        }
        class
    }
}
