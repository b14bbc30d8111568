//! Carries out the command lines of `bucketd`.
#![tactic(auto)]

mod environment;
mod failure;
mod files;
mod input;
mod lines;
mod secrets;
mod telling;
mod works;

pub use environment::environment_of;
pub use failure::Failure;
pub use lines::{carry_out, carry_task};
