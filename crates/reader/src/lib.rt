// A reader of recordings: it runs the events afresh and compares each output line and each line of the listing with what the machine
// prints. `by_line` reads a line at a time, `program` a whole recording on standard input.
#![tactic(auto)]

pub mod by_line;
pub mod program;
