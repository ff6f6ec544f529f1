// What the tools that read a bus log share: the words that they are started with and the log that they name, the lines that they
// write and the text in which those wait, and what they say of a word or a log that is no good.
#![tactic(auto)]

pub mod complaints;
pub mod failures;
pub mod lines;
pub mod options;
pub mod waiting;
pub mod words;
