//! Finds the operation that a request asks for, from its method, target, query and header fields.
//! Refusals have one fixed order.
#![tactic(auto)]

pub mod address;
pub mod allow;
mod buckets;
mod headers;
pub mod laws;
mod method;
mod number;
mod objects;
pub mod operation;
pub mod page;
mod query;
mod read;
pub mod routes;
mod source;
mod target;
pub mod text;

pub use target::path_of;
