//! Connections to a host. Each has one request, or one line of an operator, and is answered like an
//! event.
#![tactic(auto)]

mod acceptor;
mod backup;
mod bounded;
mod clock;
mod connection;
mod doors;
mod each;
mod group;
mod listener;
mod log;
mod noted;
mod operator;
mod sending;
mod served;
mod sockets;
mod taking;
mod together;

pub use acceptor::Acceptor;
pub use backup::{BackUp, CacheUses};
pub use clock::{Clock, MachineClock};
pub use connection::serve_connection;
pub use doors::{Doors, Operators};
pub use each::{Arrival, serve_each};
pub use listener::{OperatorPort, Ports, drop_after, serve_from, serve_listener, serve_port};
pub use operator::{is_sweep, serve_line};
pub use served::{End, Served, Visited};
pub use sockets::Manner;
