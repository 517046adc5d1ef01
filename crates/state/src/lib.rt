// The store's value: what it holds, what it stands for (specs/Model.antt), and whether it is sound.
// The functions here serve the store above and are no entry points: where one has a `requires`, a sound value meets it.
#![tactic(auto)]

ghost use Rattle.std.specs.Prelude.{◌≡◌, true, false};
ghost use Rattle.rules.specs.House.{share};
ghost use Rattle.rules.specs.Sound.{sound};
ghost use Rattle.state.specs.Model.{rests, model_of};

use edits::Columns;
pub use leaves::regions::Regions;
use plan::Turn;

pub mod queries;
pub mod running;
pub mod sound;

// A running flush: its boundary, the moves made, the length deleted, and whether a checkpoint is due. At rest all is 0.
#[derive(Clone, Copy)]
pub struct Flush {
    pub boundary: u8,
    pub made: u32,
    pub deleted: u16,
    pub due: bool,
}

// The store's value. In a flush regions and objects are those of its start, a new object last. An area of 0 is that of a refused
// opening.
#[derive(Clone, Copy)]
pub struct State {
    pub area: u32,
    pub regions: Regions,
    pub objects: Columns,
    pub count: usize,
    pub flush: Flush,
}

// A value of the store that passed its test.
#[derive(Clone, Copy)]
pub struct Checked {
    pub state: State,
    ghost holds: { sound share (model_of state) ≡ true },
}

// A checked value in which a flush runs.
#[derive(Clone, Copy)]
pub struct Flushing {
    pub state: State,
    ghost holds: { sound share (model_of state) ≡ true },
    ghost runs: { rests state.flush ≡ false },
}

// What a running flush does next: a turn, if a move is ahead, and whether a wait comes behind it.
#[derive(Clone, Copy)]
pub struct Onward {
    pub turn: Option<Turn>,
    pub waits: bool,
}
