//! What a host's storage answers: its records, its errors, and what a call on it does to the tables.
#![tactic(auto)]

pub mod answer;
pub mod error;
pub mod plan;
pub mod report;
