//! S3's listings of a bucket over a host's SQL tables, by seeks.
#![tactic(auto)]

pub mod from_row;
mod lines;
pub mod objects;
pub mod rows;
pub mod tell;
mod told;
mod told_uploads;
mod told_versions;
pub mod versions;
