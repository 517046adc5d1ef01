// Soundness, its limits: the tests that need no regions, of names, lengths, volumes and the quota. Each equals its definition in
// specs/Sound.antt of crate rules, for the objects that the columns list; crate sound_rest has the rules at rest. The functions here
// serve the crates above and are no entry points: a `requires` says that the columns are as long as one another, and that
// the objects are no more than the house allows where names are put in order, and few enough for their sum where volumes are.
#![tactic(auto)]

pub mod limits;
mod names;
pub mod volumes;
