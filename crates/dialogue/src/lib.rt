// A record driven by hand, line by line: what the programs share that read a call from each line of standard input and answer
// it by a line of standard output. Which record it is, or which table of them, and its own calls belong to the program.
//
// A line goes this way: it is read (`lines`), understood (`calls`, and `places` for a table, by `words`, `numbers` and `rows`),
// run (`driven`, for one record), and its answer is written (`answers`) and said (`session`).
#![tactic(auto)]

pub mod answers;
pub mod calls;
pub mod driven;
pub mod lines;
pub mod numbers;
pub mod places;
pub mod rows;
pub mod session;
pub mod words;
