// How many accepted steps a call makes: specs/StepCounts says it, specs/Theorems has the promises. Nothing is run from here.
#![tactic(auto)]
