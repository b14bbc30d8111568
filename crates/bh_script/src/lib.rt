//! Scripts of events: parsed from bytes, applied to a new host in memory, and answered.
#![tactic(auto)]

mod answers;
pub mod error;
pub mod input;
pub mod script;
