// The stream of calls that a program answers: standard input, and the calls that stand there.
#![tactic(auto)]

pub mod calls;
pub mod input;
mod reader;
