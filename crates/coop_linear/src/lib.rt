// The promises on whole schedules of the cooperative bucket: specs/Theorems. Nothing is run from here.
#![tactic(auto)]
