//! SHA-256 (FIPS 180-4) of eight messages side by side.
#![tactic(auto)]

mod block;
mod rounds;
mod words;

pub use block::digest_eight;
