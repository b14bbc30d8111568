//! Bytes of blocks in append-only files beside a database.
#![tactic(auto)]

pub mod file;
pub mod folder;
pub mod pack;
pub mod packs;
pub mod place;
pub mod removed;
pub mod restart;
mod slots;
pub mod trouble;
