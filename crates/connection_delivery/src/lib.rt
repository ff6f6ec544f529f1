// The connection record as an end of `delivery`, lawful, and how two of them come to be fresh: definitions (specs/) and theorems (proofs/). No code.
#![tactic(auto)]
