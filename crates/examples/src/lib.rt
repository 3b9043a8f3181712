// Examples computed on the definitions: see specs/ and proofs/.
#![tactic(auto)]
