// Lane against office (paper 02, U14): the moves of each side, and what is said of a position. specs/ has what they mean and what is
// proved of it; no code is here.
#![tactic(auto)]

// "the lanes step one of theirs that runs or pass": tasks 0 and 1 are theirs.
#[derive(Clone, Copy)]
pub enum LanesMove {
    StepTask0,
    StepTask1,
    LanesPass,
}

// "the office steps its task, or starts a grow or shrink if it is idle, or passes": task 2 is its.
#[derive(Clone, Copy)]
pub enum OfficeMove {
    StepTask2,
    StartGrow,
    StartShrink,
    OfficePass,
}

// What is said of a position: a winning first move of the lanes, or that they cannot win against every play of the office, or a
// refusal's number.
#[derive(Clone, Copy)]
pub enum Verdict {
    LanesWin(LanesMove),
    OfficeHolds,
    Refused(u32),
}
