// Recorded shifts: what a reader of recordings answers, and where a reader and a recorder stand between two lines. specs/ has every
// definition of what they mean; no code is here.
#![tactic(auto)]

use session::HeaderLine;
use spec::Output;

// What a reader answers: each line is what the machine prints, or the number, from 1, of the first that is not, or a refusal's number.
#[derive(Clone, Copy, PartialEq, Eq)]
pub enum Verdict {
    Same,
    Differs(u64),
    Refusal(u32),
}

// Which line a reader takes next: a header line; an event's, or the listing's first; the output line of an event of this task; a line
// of the listing, by its place in it from 0 on. Or the answer is given.
#[derive(Clone, Copy)]
pub enum ReaderPhase {
    Due(HeaderLine),
    Event,
    Printed(u32, Output),
    Listed(u32),
    Decided(Verdict),
}

// Which line a recorder takes next: a header line, or an event's. Or the listing is written, or nothing is recorded.
#[derive(Clone, Copy)]
pub enum RecorderPhase {
    Header(HeaderLine),
    Events,
    Ended,
}
