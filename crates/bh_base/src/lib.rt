//! A connection to a host: its database, and the packs that have bytes of its blocks.
#![tactic(auto)]

pub mod connection;
pub mod places;
pub mod removal;
pub mod transactions;
pub mod trouble;
