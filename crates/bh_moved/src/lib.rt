//! Moves a tenant from one host's tables to another's: reads its rows and bodies from the one and
//! writes them to the other.
#![tactic(auto)]

mod account;
mod body;
mod buckets;
mod cells;
mod moves;
mod moving;
mod parts;
mod plain;
mod rows;
mod sole;
mod stamps;
mod tables;
mod tenant;
mod versions;

pub use moves::move_tenant;
pub use sole::sole_tenant;
pub use tenant::bring_tenant;
