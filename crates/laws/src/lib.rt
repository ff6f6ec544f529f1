// What every definition and proof may cite: the branch `if .. then .. else`, and facts about tests and lists. No code.
#![tactic(auto)]
