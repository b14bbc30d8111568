//! A host in a SQL database, as the storage to which events are applied. Each operation is passed
//! to the function that carries it out.
#![tactic(auto)]

mod answers;
pub mod asked;
mod changing;
mod commands;
mod documents;
mod host;
pub mod lifecycle;
mod listings;
pub mod operations;
pub mod sql_host;
pub mod uploads;
