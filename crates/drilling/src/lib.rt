// The requests put to a desk of `drill`, and the lines that answer them.
// Every public function here takes any arguments.
#![tactic(auto)]

use desks::Desk;

pub mod calls;
mod sums;

// A request answered: the desk afterwards, and the place behind its line.
#[derive(Clone, Copy)]
pub struct Answered {
    pub desk: Desk,
    pub end: usize,
}
