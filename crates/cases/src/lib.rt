// Cases of the refusals, computed on the definitions: see specs/ and proofs/.
#![tactic(auto)]
