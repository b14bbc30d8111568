//! S3's listings of uploads and of their parts over a host's SQL tables, by seeks.
#![tactic(auto)]

pub mod parts;
mod rows;
pub mod uploads;
