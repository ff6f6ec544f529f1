// Demand 2: what is written reads back, what is read was written, and the telegrams of a message, received one after the other, give the message. No code.
#![tactic(auto)]
