//! What a command line asks for.

ghost use Rattle.std.specs.Prelude.{◌≡◌, option_map};
ghost use Rattle.bh_task.specs.Doors.{port_in, socket_in};

use bh_event::order::{HostOrder, Order};
use bh_types::block_digest::BlockDigest;
use bh_types::limits::{Limits, Tuning};
use bh_words::{ClockGiven, Leap};
use sqlite_disk::Start;

/// A file's path, and what is supposed of its contents when it is opened.
#[derive(Drop)]
pub struct FileAt<S: Start> {
    pub path: String,
    pub start: S,
}

/// What is supposed of the files of a command: of its host's, of the other one that it names, and
/// of the one in which an export makes its host.
#[derive(Drop)]
pub struct Starts<S: Start, T: Start, U: Start> {
    pub host: S,
    pub other: T,
    pub made: U,
}

/// Where a server listens.
#[derive(Drop)]
pub enum Door {
    /// A port of 127.0.0.1; if it is 0, the system chooses one.
    Port(u16),
    /// A Unix socket of this path.
    Socket(String),
}

impl Door {
    /// The port; 0 for a socket.
    pub fn port(&self) -> u16
        ensures { result ≡ port_in self.now }
    {
        match self {
            Door::Port(port) => *port,
            Door::Socket(_) => 0,
        }
    }

    /// The socket's path, if it is one.
    pub fn socket(&self) -> Option<&str>
        ensures { option_map (λ s. s.now) result ≡ socket_in self.now }
    {
        match self {
            Door::Port(_) => None,
            Door::Socket(path) => Some(path.as_str()),
        }
    }
}

/// Where operators' lines are taken, and the file of the operators' secret.
#[derive(Drop)]
pub struct OperatorGiven {
    pub door: Door,
    pub secret_file: Option<String>,
}

/// How a host is to be served.
#[derive(Drop)]
pub struct ServeTask {
    pub door: Door,
    /// The group whose users may use the socket.
    pub socket_group: Option<String>,
    /// The number of requests and lines; `None` for no limit.
    pub count: Option<u64>,
    /// How many seconds a request may take to read, and its response to write.
    pub timeout: u64,
    /// Whether each request is logged to standard error.
    pub is_logged: bool,
    /// How many connections are open at most.
    pub connections: u32,
    /// The directory of long requests and responses; `None` for that of the host's file.
    pub spool: Option<String>,
    /// By how many seconds the clock may jump.
    pub clock_step: u64,
    /// How many bytes that nobody needs may stay before a sweep begins.
    pub keep_garbage: Option<u64>,
    pub operator: Option<OperatorGiven>,
}

/// What a server is told.
#[derive(Drop)]
pub enum Told {
    /// A line as it was given; `-` means the first line of standard input.
    Line(String),
    /// An operator's order. A key's secret `-` means the first line of standard input.
    Order(Order),
}

/// Work on a host, before any secret is read.
#[derive(Drop)]
pub enum HostTask {
    /// An operator's order. A key's secret `-` means the first line of standard input.
    Order(HostOrder),
    /// Serves connections.
    Serve(ServeTask),
}

/// Work on a file whose host isn't being served.
#[derive(Drop)]
pub enum Maintenance<S: Start, T: Start, U: Start> {
    /// Copies a file's host to a new file.
    Backup {
        of: FileAt<S>,
        to: FileAt<T>,
    },
    /// Copies a tenant of a file's host to a new host in a new file.
    Export {
        of: FileAt<S>,
        tenant: String,
        to: FileAt<T>,
        made: U,
    },
    /// Adds the only tenant of a file's host to another file's host.
    Import {
        to: FileAt<S>,
        from: FileAt<T>,
        leap: Leap,
    },
    /// Checks a file's host.
    Check {
        file: FileAt<S>,
    },
}

/// What a command line asks for.
#[derive(Drop)]
pub enum LineTask<S: Start, T: Start, U: Start> {
    /// Answers the script on standard input, on a new host in memory.
    Script {
        limits: Limits,
        tuning: Tuning,
        digest: Option<BlockDigest>,
    },
    /// Creates a host in a file.
    Init {
        file: FileAt<S>,
        limits: Limits,
        digest: Option<BlockDigest>,
    },
    /// Work on a file's host.
    OnHost {
        file: FileAt<S>,
        tuning: Tuning,
        clock: ClockGiven,
        asked: HostTask,
    },
    /// Work on a file whose host isn't being served.
    Maintain(Maintenance<S, T, U>),
    /// Sends a line to a running server's operators' door.
    Tell {
        door: Door,
        secret_file: Option<String>,
        told: Told,
    },
}
