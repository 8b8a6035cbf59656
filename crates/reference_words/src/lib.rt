// The words of the second implementation's memory, and what it and its comparisons ask of words and numbers. See `reference`.
#![tactic(auto)]

pub mod words;
