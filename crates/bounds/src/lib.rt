// How many records always suffice: specs/EnoughRecords says it, specs/Theorems has the promise. Nothing is run from here.
#![tactic(auto)]
