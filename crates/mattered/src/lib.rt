// The step that mattered (paper 02, U13): what is said of a session. specs/ has the definition of it; no code is here.
#![tactic(auto)]

// "It is given as its place among the events, from 1. If no single omission does so, it says none." Or a refusal's number.
#[derive(Clone, Copy)]
pub enum Verdict {
    Place(u32),
    NoStep,
    Refused(u32),
}
