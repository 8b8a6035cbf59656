// The calls for C: what each gives and leaves (specs/Calls), of many events or turns in one call too (specs/Runs), with rows of them (specs/CallRows). The
// code is in yard_c and schedule_c.
#![tactic(auto)]
