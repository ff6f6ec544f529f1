// Text as bytes: what the programs read out of lines and put into them, and the output that they write to.
//
// A reader takes a slice of any length and answers what stands there, or that nothing of the kind does. A writer puts
// characters into a lent slice from a place on, as far as there is room, and answers the next place.
#![tactic(auto)]

pub mod input;
pub mod line;
pub mod output;
pub mod reading;
pub mod writing;
