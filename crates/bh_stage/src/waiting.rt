//! Ends of sockets that can be waited for.

use std::io;
use std::io::ErrorKind;

/// An end of a connection whose calls never wait: one that would, fails with `WouldBlock`.
pub trait Patient {
    /// Waits until a call may go on, but at most so many milliseconds. Returns how many of them are
    /// left; 0 if the time is over.
    fn wait(&mut self, milliseconds: u64) -> u64;
}

/// A writing end that can be closed by itself.
pub trait Shut {
    /// Closes the writing half of the connection.
    fn shut(&mut self) -> io::Result<()>;
}

/// Whether a call failed only because it would have waited.
pub(crate) fn would_wait(error: &io::Error) -> bool {
    error.kind() == ErrorKind::WouldBlock
}

/// The error of a call whose time is over.
pub(crate) fn too_late() -> io::Error {
    io::Error::from(ErrorKind::TimedOut)
}
