// The rows of a timeline: specs/ has the definitions and rows of them. The code is in timeline.
#![tactic(auto)]
