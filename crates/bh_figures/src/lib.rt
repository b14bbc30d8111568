//! What a server counts from its start on, and the page of it that Prometheus reads.
#![tactic(auto)]

pub mod figures;
pub mod page;
