//! A host in files: stopped at any moment, and opened again.
#![tactic(auto)]

mod files;
mod hosts;
pub mod laws;

pub use files::{stop, stop_and_open};
pub use hosts::{ReopenError, stop_and_open_host};
