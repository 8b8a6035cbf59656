// The types of two lanes' notes (paper 02, U8). specs/ has the definitions, what is proved of them, and the text of notes; no code is here but a
// lane's number.
#![tactic(auto)]

ghost use Rattle.std.specs.Prelude.{◌≡◌};
ghost use Rattle.notes.specs.Merge.{number_of};

use spec::{Answer, Call};

// One ended call, as a lane wrote it down.
#[derive(Clone, Copy)]
pub struct Note {
    pub call: Call,
    pub tag: u32,
    pub answer: Answer,
}

// A lane's list: how many calls it has, and its first six, in the lane's order. Places at or past the count are not read.
#[derive(Clone, Copy)]
pub struct Notes {
    pub count: usize,
    pub note: [Note; 6],
}

// The lane whose next call is taken.
#[derive(Clone, Copy)]
pub enum Lane {
    First,
    Second,
}

impl Lane {
    // Its number in a line of notes.
    pub fn number(self) -> u64
        ensures { result ≡ number_of self }
    {
        match self {
            Lane::First => 1,
            Lane::Second => 2,
        }
    }
}

// Why two lists are put in no order, printed as 13: one of them is longer than six, or has a resize.
#[derive(Clone, Copy)]
pub enum Unfit {
    LongerOrResize,
}

// What a line of notes says: a call of the first lane or of the second. A line that may be outside the grammar is an `Option<NoteLine>`.
#[derive(Clone, Copy)]
pub enum NoteLine {
    First(Note),
    Second(Note),
}
