// The rules of the page store: its house numbers and its kinds of value. The definitions are in specs/, their laws in proofs/.
#![tactic(auto)]

ghost use Rattle.std.specs.Prelude.{◌≡◌};
ghost use Rattle.rules.specs.Answers.{number_of};

pub mod house;

// What an object is called. A place is never taken for a name.
#[derive(Clone, Copy)]
pub struct Name(pub u16);

// Where an object's first byte lies in the area.
#[derive(Clone, Copy)]
pub struct Addr(pub u16);

// Where an object lies: its first byte, and its length.
#[derive(Clone, Copy)]
pub struct Place {
    pub at: Addr,
    pub len: u16,
}

// What a call answers. `number_of` of specs/Answers.antt gives each case its number.
#[derive(Clone, Copy)]
pub enum Answer {
    Done,
    Running,
    Unsound,
    WrongArea,
    Busy,
    NameZero,
    BadLength,
    NameHeld,
    NotHeld,
    Full,
    OverQuota,
    CheckpointDue,
    ShortBuffer,
    NoMap,
    BadVersion,
    BadSize,
    BadEntry,
}

// The number of an answer, by the table.
impl From<Answer> for u64 {
    ghost from_gives = { λ a r. r ≡ number_of a };

    fn from(a: Answer) -> u64 {
        match a {
            Answer::Done => 0,
            Answer::Running => 20,
            Answer::Unsound => 15,
            Answer::WrongArea => 1,
            Answer::Busy => 2,
            Answer::NameZero => 3,
            Answer::BadLength => 4,
            Answer::NameHeld => 5,
            Answer::NotHeld => 6,
            Answer::Full => 7,
            Answer::OverQuota => 8,
            Answer::CheckpointDue => 9,
            Answer::ShortBuffer => 10,
            Answer::NoMap => 11,
            Answer::BadVersion => 12,
            Answer::BadSize => 13,
            Answer::BadEntry => 14,
        }
    }
}
