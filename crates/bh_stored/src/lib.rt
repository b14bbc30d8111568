//! The rows of a host's tables, read through a store's cursors.
#![tactic(auto)]

pub mod cells;
pub mod failure;
pub mod stored;
pub mod trees;
