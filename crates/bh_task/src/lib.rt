//! What a command line asks for.
#![tactic(auto)]

mod line_task;
mod lines;
mod misfit;
mod places;

pub use line_task::{
    Door, FileAt, HostTask, LineTask, Maintenance, OperatorGiven, ServeTask, Starts, Told,
};
pub use lines::task_of;
pub use misfit::Misfit;
pub use places::{Environment, Place};
