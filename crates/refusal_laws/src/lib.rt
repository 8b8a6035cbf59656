// Each refusal of a program's input exactly under its condition: see specs/. No code is here.
#![tactic(auto)]
