//! Sweeps, which remove stale uploads of all tenants and then unreferenced blocks. Reports, which
//! count what all tenants have stored.
#![tactic(auto)]

pub mod laws;
pub mod packs;
pub mod report;
mod rows;
pub mod sweep;
