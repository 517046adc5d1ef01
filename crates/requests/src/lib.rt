// An accepted insert and an accepted delete: at rest, or by a flush that begins.
// The functions here serve the store above and are no entry points: what they require the tests of the call have shown.
#![tactic(auto)]

use rules::Answer;
use state::State;

pub mod deletes;
mod flushes;
pub mod inserts;
mod regions;

// What an accepted request comes to: the value afterwards, and the answer.
#[derive(Clone, Copy)]
pub struct Begun {
    pub state: State,
    pub answer: Answer,
}

// The same of an insert, and where the object lies.
#[derive(Clone, Copy)]
struct Placed {
    state: State,
    at: u32,
    answer: Answer,
}
