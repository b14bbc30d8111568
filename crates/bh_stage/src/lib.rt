//! Many connections in one thread, of which each brings one request: what came of each is kept
//! until the request is whole, and what it is answered until its socket takes it.
#![tactic(auto)]

mod connection;
mod copying;
pub mod draft;
pub mod kept;
pub mod order;
pub mod outbox;
mod patience;
mod places;
pub mod record;
pub mod spool;
mod spooled;
pub mod stage;
pub mod waiting;
pub mod whole;
pub mod wires;
