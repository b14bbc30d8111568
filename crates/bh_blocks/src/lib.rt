//! Blocks of bytes that all tenants share, and bodies as lists of them, in a host's SQL tables.
//! Equal bytes are stored once. Nothing is assumed of the digest function: if digests are equal,
//! the bytes are compared.
#![tactic(auto)]

pub mod blocks;
pub mod bodies;
pub mod digester;
pub mod drafts;
mod groups;
pub mod reading;
mod refs;
pub mod removal;
mod rows;
mod siphash;
mod uses;
