//! S3's buckets and objects over a host's SQL tables.
#![tactic(auto)]

pub mod bodies;
pub mod buckets;
mod coming;
pub mod copies;
pub mod dates;
pub mod deletes;
pub mod gets;
pub mod heads;
pub mod ids;
pub mod objects;
pub mod quotas;
pub mod reads;
pub mod retention;
pub mod writes;
