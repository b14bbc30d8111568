//! A tenant leaves a host: its keys, its buckets and all in them, in one transaction.
#![tactic(auto)]

mod decision;
mod removal;

pub use removal::remove_tenant;
