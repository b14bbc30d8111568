//! Calls of the crates below, for the rows of the program `examples`: the result for an input, as
//! text.
#![tactic(auto)]

pub mod answer;
pub mod calls;
mod documents;
pub mod escapes;
mod operations;
mod plain;
mod requests;
mod shown;
pub mod words;
