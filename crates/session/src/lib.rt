// The lines of a session: what is read of them. specs/ has the grammar, the printed lines and, in Transcript, the whole output for a
// whole input.
#![tactic(auto)]

use spec::{Call, Config};

// What an event's line asks for: a start, with task, call and tag (0 for a resize), or a step, with its task.
#[derive(Clone, Copy)]
pub enum EventLine {
    Start(u32, Call, u32),
    Step(u32),
}

// The header's numbers, as far as they are read: what the opening is given besides the two slices, and how many records each slice
// has.
#[derive(Clone, Copy)]
pub struct Header {
    pub config: Config,
    pub nodes: u32,
    pub buckets: u32,
}

// The header lines, in their order: which one is due. The last two may be left out.
#[derive(Clone, Copy)]
pub enum HeaderLine {
    Tasks,
    Nodes,
    Buckets,
    Version,
    Blank,
}

// What a line says where a header line is due: it is that line, or one after it where that may be left out, and then another one is due, or
// the header is complete; or it is another line, which follows a header that is complete without them, or the header line is missing.
#[derive(Clone, Copy)]
pub enum HeaderStep {
    Next(HeaderLine, Header),
    Complete(Header),
    Absent(Header),
    Missing,
}
