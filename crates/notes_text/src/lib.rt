// Two lanes' notes as text (Text of notes): `parse` reads a line, `print` appends lines to a lent buffer, `reading` takes an input line by line,
// `program` is `yardnotes`.
#![tactic(auto)]

pub mod parse;
pub mod print;
pub mod program;
pub mod reading;
