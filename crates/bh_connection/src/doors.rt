//! The listeners of clients and of operators. Whichever has a connection is taken next; if both
//! have one, they take turns.

ghost use Rattle.std.specs.Prelude.{◌≡◌, option_map};
ghost use Rattle.bh_connection.specs.Visits.{secret_at};

use bh_host::Caller;
use libc::net::{POLLIN, poll};
use libc::types::pollfd;
use std::io;
use std::io::ErrorKind;
use std::net::TcpListener;
use std::os::fd::AsRawFd;

/// How many milliseconds one system call waits for a connection.
const WAIT: i32 = 60_000;

/// The listener for operators.
#[derive(Clone, Copy)]
pub struct Operators<'a> {
    pub listener: &'a TcpListener,
    /// The secret that a line begins with, before a space, if other processes may connect too.
    pub secret: Option<&'a [u8]>,
}

/// The listeners: of clients, and of operators if there is a port for them.
#[derive(Clone, Copy)]
pub struct Doors<'a> {
    pub clients: &'a TcpListener,
    pub operators: Option<Operators<'a>>,
}

impl<'a> Doors<'a> {
    /// The secret of operators, if they have one.
    pub(crate) fn secret(&self) -> Option<&'a [u8]>
        ensures { option_map (λ s. s.now) result ≡ secret_at self.now.operators }
    {
        match self.operators {
            Some(operators) => operators.secret,
            None => None,
        }
    }

    /// If there are two listeners, neither may block in accept, since a waiting connection may have
    /// gone.
    pub(crate) fn make_ready(&self) -> io::Result<()> {
        match self.operators {
            Some(operators) => {
                self.clients.set_nonblocking(true)?;
                operators.listener.set_nonblocking(true)
            }
            None => Ok(()),
        }
    }
}

/// Which listeners have a connection.
#[derive(Clone, Copy)]
struct Ready {
    clients: bool,
    operators: bool,
}

/// Who is next: after a client an operator, if one waits, and after an operator a client. `None` if
/// nobody connects for a while. One system call polls both listeners.
pub(crate) fn next_caller(
    clients: &TcpListener,
    operators: &TcpListener,
    last: Caller,
) -> io::Result<Option<Caller>> {
    Ok(chosen(wait_for(clients, operators)?, last))
}

fn chosen(ready: Ready, last: Caller) -> Option<Caller> {
    match (ready.clients, ready.operators) {
        (false, false) => None,
        (true, false) => Some(Caller::Request),
        (false, true) => Some(Caller::Operator),
        (true, true) => Some(other(last)),
    }
}

fn other(caller: Caller) -> Caller {
    match caller {
        Caller::Request => Caller::Operator,
        Caller::Operator => Caller::Request,
    }
}

/// Waits until a listener has a connection, or the time is over.
///
/// POSIX.1-2017, poll
fn wait_for(clients: &TcpListener, operators: &TcpListener) -> io::Result<Ready> {
    let mut asked = [asked_of(clients), asked_of(operators)];
    let count = poll(&mut asked, WAIT);
    if count < 0 {
        return none_ready(io::Error::from_raw_os_error(os::errno()));
    }
    Ok(Ready {
        clients: asked[0].revents != 0,
        operators: asked[1].revents != 0,
    })
}

/// A wait that a signal ended found none.
fn none_ready(error: io::Error) -> io::Result<Ready> {
    if error.kind() == ErrorKind::Interrupted {
        return Ok(Ready {
            clients: false,
            operators: false,
        });
    }
    Err(error)
}

fn asked_of(listener: &TcpListener) -> pollfd {
    pollfd {
        fd: listener.as_raw_fd(),
        events: POLLIN,
        revents: 0,
    }
}
