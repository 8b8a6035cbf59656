// A turn for every lane (paper 02, U7): what a turn of the dispatcher answers. specs/ has the definitions: one turn, runs of starts, steps
// and turns, and what is promised of every run. Nothing is run from here.
#![tactic(auto)]

use spec::{Output, Refusal};

// What a turn answers: nothing runs; the task that the turn went to, with what its step answers, which is no refusal but 7 or the step's
// own 8; or the refusal of spoilt memory.
#[derive(Clone, Copy)]
pub enum Turn {
    Idle,
    Of(u32, Output),
    Refused(Refusal),
}
