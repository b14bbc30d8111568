//! Names, access keys, ids, moments, limits, checksums, tokens, ranges, refusals and rejections of a bucket host.
#![tactic(auto)]

pub mod access_key;
pub mod block_digest;
pub mod bucket;
pub mod bucket_state;
mod bytes;
pub mod checksum;
pub mod counters;
pub mod digits;
pub mod error;
pub mod id;
pub mod key;
pub mod limits;
pub mod moment;
pub mod names;
pub mod range;
pub mod refusal;
pub mod rejection;
pub mod text;
pub mod token;
pub mod wanted;
