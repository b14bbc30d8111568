//! The packs of a host, as the database's layers see them.
#![tactic(auto)]

pub mod closed;
pub mod copied;
mod marks;
pub mod no_shelf;
pub mod shelf;
pub mod shelved;
