// Lists of calls on their definitions: the exchange of source 004, which comes to what document 01 prints, and a default opening
// (document 02, request 3). No code.
#![tactic(auto)]
