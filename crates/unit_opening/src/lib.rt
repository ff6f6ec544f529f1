// No code: how a connection record and a control unit end their opening. See specs/ and proofs/.
#![tactic(auto)]
