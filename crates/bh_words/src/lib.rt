//! Parses the command line.
#![tactic(auto)]

mod command;
mod fault;
mod given;
mod lines;
mod options;
mod read;
mod readings;
mod sizes;
mod subcommands;

pub use fault::LineFault;
pub use given::port_of;
pub use lines::{
    ClockGiven, ClockTyped, DoorGiven, DoorsGiven, Leap, Line, PlaceGiven, ServeGiven,
};
pub use read::read_words;
