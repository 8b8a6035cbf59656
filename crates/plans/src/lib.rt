// The types of the planner (paper 02, U11). specs/ has the definitions; no code is here but a refusal's number.
#![tactic(auto)]

ghost use Rattle.std.specs.Prelude.{◌≡◌};
ghost use Rattle.plans.specs.Plan.{refusal_number};

use spec::{Answer, Call};

// A call that is planned. The tag of a resize is not read.
#[derive(Clone, Copy)]
pub struct Planned {
    pub call: Call,
    pub tag: u32,
}

// A list of calls: how many it has, and its first 64, in their order. Places at or past the count are not read.
#[derive(Clone, Copy)]
pub struct Calls {
    pub count: usize,
    pub call: [Planned; 64],
}

// What a call comes to: its answer, its own steps, and how many bucket records it takes.
#[derive(Clone, Copy)]
pub struct Figures {
    pub answer: Answer,
    pub own: u32,
    pub buckets: u32,
}

// Why a list is refused: the version is not 1 or 2, printed as 11, or it has more than 64 calls, printed as 9.
#[derive(Clone, Copy)]
pub enum Refusal {
    Version,
    TooLong,
}

impl Refusal {
    // Its number in the papers.
    pub fn number(self) -> u32
        ensures { result ≡ refusal_number self }
    {
        match self {
            Refusal::Version => 11,
            Refusal::TooLong => 9,
        }
    }
}
