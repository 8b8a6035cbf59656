// Recordings and verdicts computed from the definitions (specs/Cases). Nothing is run from here. They stand apart from the definitions, since computing
// them takes most of the time and no edit of the definitions needs them: each of those is refused by a row of recording.
#![tactic(auto)]
