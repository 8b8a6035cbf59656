// What the programs over standard input and output have alike: the input by lines, what is printed and written, the words on standard error, the exit
// status. A program's own loop asks for a line, takes it, and says whether that fixed its answer.
#![tactic(auto)]

pub mod input;
pub mod output;
pub mod rest;
pub mod source;
mod words;
