// Bytes to meaning and back: what a TP 2.0 telegram says, and the bytes that say it. No state.
//
// Every reader takes a slice of any length and answers `Malformed` for whatever the protocol does not name.
// Every writer gives a `Payload`: a length and eight bytes, zero behind the length.
#![tactic(auto)]

pub mod cutting;
pub mod kinds;
pub mod payload;
pub mod time;
