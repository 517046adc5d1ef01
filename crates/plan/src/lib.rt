// The plan of a flush, played on columns: what is ahead after a number of moves, the next move, and the places now, each in a fixed number
// of passes. The functions here serve the crates above and are no entry points: they require columns of n entries, and that
// n is no more than the house allows. Their contracts are by index; Rules.antt of crate flush_laws says what they come to by the rules.
#![tactic(auto)]

pub mod courses;
mod cuts;
pub mod next;
mod phases;
pub mod places;
pub mod waits;

// How a phase is cut: it is one run, or its runs keep to the limit by volume or by span.
#[derive(Clone, Copy)]
pub enum Cut {
    Whole,
    Volumes,
    Spans,
}

// The moves of a phase: the objects of a kind among the first `count`, in rising or falling order, and how they are cut into runs.
// A kind is a number, since it is compared with entries of a column of kinds, which index the layout's tables.
#[derive(Clone, Copy)]
pub struct Phase {
    pub kind: u8,
    pub falling: bool,
    pub count: usize,
    pub cut: Cut,
}

// A move of a plan: the object of this index goes from one place to another, and begins a run or not.
#[derive(Clone, Copy)]
pub struct Turn {
    pub index: usize,
    pub from: u32,
    pub to: u32,
    pub begins: bool,
}

// What a plan has ahead: the number of its moves in all, and the next one, if there is one.
#[derive(Clone, Copy)]
pub struct Ahead {
    pub total: u32,
    pub next: Option<Turn>,
}
