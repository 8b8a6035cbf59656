// The lines of the two helpers of Figure 6, DOFREEZE and HELPFINISH: a function for each line, and one that goes by the task's line.
#![tactic(auto)]

pub mod do_freeze;
pub mod help_finish;
