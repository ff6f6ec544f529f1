// What is handed out is what was accepted: definitions (specs/) and theorems (proofs/) about any two ends of a connection and the links
// between them, one of them sending or both. No code.
#![tactic(auto)]
