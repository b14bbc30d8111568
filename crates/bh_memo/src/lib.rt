//! Facts of a host's tables that a process remembers, so that it needn't query them again.
#![tactic(auto)]

pub mod facts;
pub mod memo;
