// What holds of every record that calls can lead to, from a closed one on: bounds, that it is never stuck, how often a request goes out. No code.
#![tactic(auto)]
