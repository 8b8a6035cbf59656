// The cases that paper 01 marks P, as one table proved from the definitions by one statement (specs/Table), and rows of ours: further schedules
// (OurCases) and the largest pools (Bounds, SpoiltLengths). Nothing is run from here. They stand apart from the definitions, since computing
// them takes most of the time and no edit of the definitions needs them: each of those is refused by a row of spec.
#![tactic(auto)]
