// No code: demand 3 and request 14 for each place of a table. See specs/ and proofs/.
#![tactic(auto)]
