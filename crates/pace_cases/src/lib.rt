// What is counted in a few schedules (specs/Examples), computed from the definitions of pace. Nothing is run from here. No edit of the definitions needs
// them.
#![tactic(auto)]
