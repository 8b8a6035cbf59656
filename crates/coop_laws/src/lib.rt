// Laws of the cooperative bucket's definitions, of any memory: see specs/. Nothing is run from here.
#![tactic(auto)]
