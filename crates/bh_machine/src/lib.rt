//! A host's answers to a tenant, as the steps of the tenant's private machine: definitions and laws
//! for the contracts of the storage and of the host.
#![tactic(auto)]

pub mod bounds;
pub mod laws;
pub mod numbers;
pub mod retained;
