// A run of a program: what it holds between two bytes (state), a line answered (answering), a chunk of bytes (feed), standard input to standard output (run).
#![tactic(auto)]

pub mod answering;
pub mod feed;
pub mod run;
pub mod state;
