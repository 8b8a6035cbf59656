// The planner's figures are those of a run: specs/Theorems. Nothing is run from here.
#![tactic(auto)]
