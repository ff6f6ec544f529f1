// Document 02, request 5: for each call of a control unit and each number, when it is given and what it leaves, as tables in the
// order of the rules (specs/), and that the unit's definitions say the same (proofs/). No code.
#![tactic(auto)]
