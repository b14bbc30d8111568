//! A host on ports of 127.0.0.1 or Unix sockets, for many connections at once: the stage of bh_stage over sockets
//! that mio tells of, as what bh_connection serves.
#![tactic(auto)]

mod answers;
mod brought;
mod ends;
mod files;
mod front;
mod group;
mod listener;
mod log;
mod many;
pub mod pace;
mod socket_file;
mod sockets;
pub mod sweeping;
mod uptime;

pub use front::{Backing, Front};
pub use log::{ClockNews, Note};
pub use many::{Places, serve_many};
pub use sockets::Sockets;
