// The state as words for callers outside Rattle. specs/ has the definitions, both ways, and that they say the same; `yard_words` has the code.
#![tactic(auto)]
