// That a capture shows what was sent: definitions (specs/) and theorems (proofs/). No code.
#![tactic(auto)]
