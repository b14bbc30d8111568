//! The SQL statements of a host, one function each.

pub mod buckets;
pub mod contents;
pub mod counts;
pub mod garbage;
pub mod host;
pub mod keys;
pub mod known;
pub mod locks;
pub mod named;
pub mod number;
pub mod places;
pub mod reading;
pub mod removal;
pub mod retains;
pub mod rules;
pub mod tallies;
pub mod tenants;
pub mod versions;
pub mod writing;
