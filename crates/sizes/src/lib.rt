// The figures that answer lines show of a store: its footprint and its volume.
// Every public function here takes any arguments.
#![tactic(auto)]

ghost use Rattle.std.specs.Prelude.{◌≡◌};
ghost use Rattle.rules.specs.Calls.{footprint_of, volume_held};
ghost use Rattle.asking.specs.Asked.{told_says};
ghost use Rattle.store.specs.Served.{model};

use rules::Answer;
use store::Store;
use store::queries::{footprint, volume};

// What answer lines show of a store.
#[derive(Clone, Copy)]
pub struct Sizes {
    pub footprint: u64,
    pub volume: u64,
}

// The amount that a query tells: what its answer says beside the number, 0 beside a refusal.
fn amount(told: Result<u32, Answer>) -> u64
    ensures { result ≡ (told_says told).1 }
{
    u64::from(told.unwrap_or(0))
}

// The footprint and the volume, each 0 where it is refused.
pub fn sizes_of(store: Store) -> Sizes
    ensures footprint_value { result.footprint ≡ footprint_of (model store) }
    ensures volume_value { result.volume ≡ volume_held (model store) }
{
    Sizes {
        footprint: amount(footprint(store)),
        volume: amount(volume(store)),
    }
}
