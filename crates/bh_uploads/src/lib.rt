//! S3's multipart uploads in a host's SQL tables: how they begin, get parts, are completed or
//! aborted, and are removed by buckets' rules.
#![tactic(auto)]

pub mod abort;
pub mod begin;
pub mod complete;
pub mod counting;
pub mod joining;
pub mod lifecycle;
pub mod parts;
pub mod purge;
pub mod quotas;
pub mod reads;
pub mod rows;
pub mod stale;
pub mod writes;
