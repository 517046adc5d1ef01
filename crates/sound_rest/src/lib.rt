// Soundness at rest: the rules of regions, places and balance as tests on columns, equal to their definition in specs/Sound.antt of crate
// rules, for the objects that the columns list. The functions here serve the crates above and are no entry points: a `requires` says
// that the columns are as long as one another, and that the objects are few enough for the sum of their lengths.
#![tactic(auto)]

mod balance;
mod placing;
pub mod rest;
