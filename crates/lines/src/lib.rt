// Lines of text: what a line asks of a program, and a stream cut into lines.
// Every public function here takes any arguments. None of them knows a store.
#![tactic(auto)]

pub mod feeding;
pub mod meaning;
mod parts;

// The numbers of a line.
#[derive(Clone, Copy)]
pub enum Numbers {
    Zero,
    One(u32),
    Three(u32, u32, u32),
}

// What a line asks of `replay`: a name, a length and a byte, or a name.
#[derive(Clone, Copy)]
pub enum Request {
    Insert(u16, u16, u8),
    Delete(u16),
}

// What a line asks of `drill`.
#[derive(Clone, Copy)]
pub enum Drill {
    Open(u32),
    Lend(u32),
    Insert(u16, u16, u8),
    Delete(u16),
    Step,
    Confirm(u16),
    Find(u16),
    Read(u16),
    Sum,
}

// A call of `feed`: the next place in the piece, how much of the line is held, and whether the line is complete.
#[derive(Clone, Copy)]
pub struct Fed {
    pub next: usize,
    pub len: usize,
    pub done: bool,
}
