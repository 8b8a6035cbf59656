// What is proved of the step that mattered (specs of mattered), and rows that no edit of the definitions needs. No code is here.
#![tactic(auto)]
