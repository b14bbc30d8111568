//! The private machine of one tenant: its definitions and their laws, and the functions on it that
//! need no bytes.
#![tactic(auto)]

pub mod counting;
pub mod entries;
pub mod laws;
pub mod parts;
pub mod retention_laws;
pub mod upload_laws;
