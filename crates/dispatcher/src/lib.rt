// What is promised of every run of starts, steps and turns (paper 02, U7): see specs/Theorems. Nothing is run from here.
#![tactic(auto)]
