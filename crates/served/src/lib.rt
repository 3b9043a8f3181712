// Demand 3 of what a server does through the exported functions: see specs/ and proofs/.
#![tactic(auto)]
