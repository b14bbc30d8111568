ghost use Rattle.std.specs.Prelude.{◌≡◌};
ghost use Rattle.bh_words.specs.Readings.{leap_of};

use bh_event::order::Order;
use bh_types::block_digest::BlockDigest;
use bh_types::limits::{Limits, Tuning};

/// How far ahead of the host's last stamp a clock may be.
#[derive(Clone, Copy)]
pub enum Leap {
    /// By at most this many days.
    Days(u32),
    /// Without limit.
    Any,
}

/// The clock of a command.
#[derive(Clone, Copy)]
pub struct ClockGiven {
    /// A reading, in seconds since 1970; `None` for the machine's clock.
    pub at: Option<u64>,
    pub leap: Leap,
}

/// What was given of an order's clock.
#[derive(Clone, Copy)]
pub struct ClockTyped {
    /// A reading, in seconds since 1970.
    pub at: Option<u64>,
    /// By how many days the clock may be ahead of the host's last stamp.
    pub days: Option<u32>,
    /// Whether it may be ahead without limit.
    pub force: bool,
}

impl ClockTyped {
    /// How far ahead the clock may be: one day if nothing is given.
    pub fn leap(self) -> Leap
        ensures { result ≡ leap_of self.force self.days }
    {
        if self.force {
            Leap::Any
        } else {
            Leap::Days(self.days.unwrap_or(1))
        }
    }
}

/// Where a server listens, as far as it was given: a port of 127.0.0.1, and a Unix socket's path.
#[derive(Drop)]
pub struct DoorGiven {
    pub port: Option<u16>,
    pub socket: Option<String>,
}

/// Where a server listens for clients and for operators, and the file of the operators' secret.
#[derive(Drop)]
pub struct DoorsGiven {
    pub clients: DoorGiven,
    /// The group whose users may use the clients' socket.
    pub socket_group: Option<String>,
    pub operators: DoorGiven,
    pub operator_secret_file: Option<String>,
}

/// How a host is served.
#[derive(Drop)]
pub struct ServeGiven {
    pub doors: DoorsGiven,
    /// Serving ends after so many requests and lines; `None` for no end.
    pub count: Option<u64>,
    /// Whether each request is logged to standard error.
    pub log: bool,
    /// How many seconds a request may take to read, and its response to write.
    pub timeout: u64,
    /// How many connections are open at most.
    pub connections: u32,
    /// The directory of temporary files for long requests and responses.
    pub spool: Option<String>,
    /// By how many seconds the clock may jump.
    pub clock_step: u64,
    /// How many bytes that nobody needs may stay before a sweep begins.
    pub keep_garbage: Option<u64>,
}

/// What was given of where an order is carried out: on the host of a file, or by a server that
/// listens to operators, after the secret in a file if one is named.
#[derive(Drop)]
pub struct PlaceGiven {
    pub file: Option<String>,
    pub door: DoorGiven,
    pub secret_file: Option<String>,
}

/// A parsed command line: a subcommand and its options.
///
/// A `digest` is `None` if no function has the given name.
#[derive(Drop)]
pub enum Line {
    /// Applies events from standard input to a new host in memory.
    Script {
        limits: Limits,
        tuning: Tuning,
        digest: Option<BlockDigest>,
    },
    /// Creates a host in a file.
    Init {
        file: String,
        limits: Limits,
        digest: Option<BlockDigest>,
    },
    /// Carries out an operator's order. A key's secret `-` means the first line of standard input.
    Ask {
        place: PlaceGiven,
        clock: ClockTyped,
        order: Order,
    },
    /// Checks that the file's host is sound.
    Check {
        file: String,
    },
    /// Copies a tenant, with all its contents, to a new host in a new file, `to`.
    Export {
        file: String,
        tenant: String,
        to: String,
    },
    /// Adds the tenant of the host in the file `given` to the host, if its last stamp isn't too far
    /// ahead of the host's and the machine's clock.
    Import {
        file: String,
        given: String,
        leap: Leap,
    },
    /// Serves requests, and operators' lines if there is a door for them.
    Serve {
        file: String,
        leap: Leap,
        tuning: Tuning,
        given: ServeGiven,
    },
    /// Sends a line to a running server's operators' door, after the secret in a file if one is
    /// named. `-` means the first line of standard input.
    Tell {
        door: DoorGiven,
        secret_file: Option<String>,
        order: String,
    },
}
