// What a reader may want to find said by itself of the entries: when each refusal is given, and that a refusal changes nothing. See
// specs/; nothing is run from here.
#![tactic(auto)]
