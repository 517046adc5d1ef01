// Leaf functions on numbers and columns: lengths, segments, the regions and their boundary; and two tests.
// The functions here serve the crates above and are no entry points: some have a `requires`.
#![tactic(auto)]

pub mod lengths;
pub mod regions;
pub mod search;
pub mod segments;
pub mod tests;
