//! Opens the host of buckets in a database.
#![tactic(auto)]

mod found;
mod open;
mod packs;
mod row;
mod tables;

pub use found::{FoundHost, HostVersion, NoHost};
pub use open::{OpenError, Opened, look, open_host};
pub use packs::see_packs;
pub use tables::is_hosts;
