//! A host of buckets in a SQL database: its transactions, stamps, tenants and access keys.
#![tactic(auto)]

mod clock;
mod credentials;
pub mod host;
mod keys;
pub mod rows;
mod tenants;
mod texts;
mod transactions;
pub mod trouble;
