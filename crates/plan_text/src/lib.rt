// A list of calls to be planned as text (specs/Text): `parse` reads a line, `print` appends lines to a lent buffer, `reading` takes an input line by
// line, `program` is `yardplan`.
#![tactic(auto)]

pub mod parse;
pub mod print;
pub mod program;
pub mod reading;

use plans::Planned;

// Which line is due: the tasks' line, the version's or a call's, or a call's. After a line outside the grammar none is: an `Option<Due>` is None.
#[derive(Clone, Copy)]
pub enum Due {
    Tasks,
    Version,
    Call,
}

// What a line says: T, the version or a call. A line that may be outside the grammar is an `Option<PlanLine>`.
#[derive(Clone, Copy)]
pub enum PlanLine {
    Tasks(u32),
    Version(u32),
    Call(Planned),
}
