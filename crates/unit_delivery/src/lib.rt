// No code: demand 3 and request 14 for a connection record and a control unit. See specs/ and proofs/.
#![tactic(auto)]
