// Schedules of the cooperative bucket (specs/Cases), what is told of one (Told) and spoilt memory (SpoiltRows), computed from the definitions. Nothing
// is run from here. They stand apart from the definitions, since computing them takes most of the time and no edit of the definitions needs
// them: each of those is refused by a row of coop_spec.
#![tactic(auto)]
