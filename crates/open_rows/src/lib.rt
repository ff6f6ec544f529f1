// For each call and each number, what an open channel's rows ask and leave, from its fields and the bytes (specs/), and that an
// open end's definitions say the same (proofs/): once, for a connection and for a control unit. No code.
#![tactic(auto)]
