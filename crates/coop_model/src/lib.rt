// The cooperative bucket as a heap without records and their reuse, its lines, and the order of its calls: see specs/. Nothing is run from here.
#![tactic(auto)]
