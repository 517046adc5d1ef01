// Edits of the store's object columns: one object more, one fewer, and a search by name.
// The functions here serve the store above and are no entry points: each `requires` is what a sound store gives.
#![tactic(auto)]

pub mod edit;

use rules::house::OBJECTS;

// The objects, a column for each property. The first n count, and n is held beside.
#[derive(Clone, Copy)]
pub struct Columns {
    pub names: [u16; OBJECTS],
    pub places: [u32; OBJECTS],
    pub lens: [u16; OBJECTS],
}
