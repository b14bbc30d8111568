//! Checks that a host's tables are sound, by reading every row and every block.
#![tactic(auto)]

pub mod blocks;
pub mod buckets;
pub mod check;
pub mod checksums;
pub mod filled;
pub mod flaw;
pub mod garbage;
pub mod groups;
pub mod laws;
pub mod looked;
pub mod lost;
pub mod measures;
pub mod placed;
pub mod rows;
pub mod sums;
pub mod tallies;
pub mod totals;
pub mod uses;
pub mod watch;
