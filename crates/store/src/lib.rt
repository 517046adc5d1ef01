// The page store: its value and its calls. Every public function here is an entry point: it takes any arguments, tests what it is
// handed in the order of the table of answers, and a refusal hands back the same store and leaves every lent byte alone.
#![tactic(auto)]

use rules::Answer;
use state::State;

pub mod calls;
pub mod queries;

// The store. Nothing outside this crate makes or changes one but by the calls.
#[derive(Clone, Copy)]
pub struct Store {
    state: State,
}

// What a call hands back: the store, and the answer.
#[derive(Clone, Copy)]
pub struct Served {
    pub store: Store,
    pub answer: Answer,
}
