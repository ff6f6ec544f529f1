// What holds of a table after every list of calls. It has no code: specs/ says it, and proofs/ proves it.
#![tactic(auto)]
