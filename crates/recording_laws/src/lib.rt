// What is promised of recorded shifts: specs/Theorems, Conditions and OnlyRecordings; and that a reader and a recorder, one line at a time,
// give it: specs/ReaderVerdict and RecorderRecords. Nothing is run from here.
#![tactic(auto)]
