// Demand 1: for each call of a connection and each number, when it is given and what it leaves, as tables in the order of the
// rules (specs/), and that the connection's definitions say the same (proofs/). No code.
#![tactic(auto)]
