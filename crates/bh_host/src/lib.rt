//! Events on a host. Each is applied in one transaction, and each tenant is answered as by its
//! private machine.
#![tactic(auto)]

pub mod answers;
mod delivery;
mod event;
mod events;
mod group;
pub mod laws;
mod lists;
pub mod offer;
mod receiving;
mod reply;
mod serve;
pub mod storage;
mod together;
mod within;

pub use delivery::{Delivery, PlannedReply, Replied};
pub use event::{Told, apply};
pub use events::run;
pub use group::{Group, apply_group};
pub use lists::tenants_line;
pub use receiving::{receive, refuse_unread};
pub use reply::{Caller, Reply, command_line, report_line, sweep_line};
pub use together::apply_together;
