//! A tenant's usage and access keys, from its own rows; and all tenants, from theirs.
#![tactic(auto)]

mod counts;
mod listing;
mod naming;
mod rows;
mod tell;

pub use listing::tenants;
pub use naming::keys;
pub use tell::usage;
