//! Whether two schemas of a SQL database are equal.
#![tactic(auto)]

mod parts;
mod schemas;
mod terms;

pub use schemas::same_schema;
