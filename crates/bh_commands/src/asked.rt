ghost use Rattle.std.specs.Prelude.{◌≡◌, is_some, option_map};
ghost use Rattle.std.specs.String.{string_bytes};
ghost use Rattle.bh_task.specs.Doors.{port_in, socket_in};
ghost use Rattle.bh_connection.specs.Listening.{secret_of};
ghost use Rattle.bh_commands.specs.Commands.{operator_socket_in, secret_in};

use bh_connection::{Manner, OperatorPort, Ports};
use bh_event::order::HostOrder;
use bh_task::Door;
use bh_types::block_digest::BlockDigest;
use bh_types::limits::{Limits, Tuning};
use bh_types::names::Secret;
use bh_wires::Places;
use bh_words::ClockGiven;

/// Where operators' lines are taken, and the secret before each, if one is needed.
#[derive(Drop)]
pub struct OperatorServing {
    pub door: Door,
    pub secret: Option<Secret>,
}

/// How a host is served.
#[derive(Drop)]
pub struct Serving {
    pub door: Door,
    /// The group whose users may use the socket.
    pub socket_group: Option<String>,
    pub operator: Option<OperatorServing>,
    /// The number of requests and lines; `None` for no limit.
    pub count: Option<u64>,
    pub manner: Manner,
    /// How many connections are open at most.
    pub connections: u32,
    /// The path of the host's file.
    pub file: String,
    /// How the names of files begin that are made while it serves.
    pub spool: String,
    /// By how many seconds the clock may jump.
    pub clock_step: u64,
    /// How many bytes that nobody needs may stay before a sweep begins.
    pub keep_garbage: Option<u64>,
}

impl OperatorServing {
    fn port(&self) -> OperatorPort<'_>
        ensures { option_map (λ s. s.now) result.secret ≡ self.now.secret }
    {
        let secret = match &self.secret {
            Some(secret) => Some(secret.as_str().as_bytes()),
            None => None,
        };
        OperatorPort {
            port: self.door.port(),
            secret,
        }
    }
}

impl Serving {
    /// The group of the socket's users.
    fn socket_group(&self) -> Option<&str>
        ensures { option_map (λ s. s.now) result ≡ option_map string_bytes self.now.socket_group }
    {
        match &self.socket_group {
            Some(group) => Some(group.as_str()),
            None => None,
        }
    }

    /// The operators' socket, if they have one.
    fn operator_socket(&self) -> Option<&str>
        ensures { option_map (λ s. s.now) result ≡ operator_socket_in self.now }
    {
        match &self.operator {
            Some(operator) => operator.door.socket(),
            None => None,
        }
    }

    /// The sockets, and the places of connections.
    pub(crate) fn places(&self) -> Places<'_>
        ensures connections { result.connections ≡ self.now.connections }
        ensures file { result.file.now ≡ string_bytes self.now.file }
        ensures spool { result.spool.now ≡ string_bytes self.now.spool }
        ensures socket { option_map (λ s. s.now) result.socket ≡ socket_in self.now.door }
        ensures group { option_map (λ s. s.now) result.socket_group ≡ option_map string_bytes self.now.socket_group }
        ensures operators { option_map (λ s. s.now) result.operator_socket ≡ operator_socket_in self.now }
        ensures clock_step { result.clock_step ≡ self.now.clock_step }
        ensures keep_garbage { result.keep_garbage ≡ self.now.keep_garbage }
    {
        Places {
            connections: self.connections as usize,
            file: self.file.as_str(),
            spool: self.spool.as_str(),
            socket: self.door.socket(),
            socket_group: self.socket_group(),
            operator_socket: self.operator_socket(),
            clock_step: self.clock_step,
            keep_garbage: self.keep_garbage,
        }
    }

    /// The ports.
    pub(crate) fn ports(&self) -> Ports<'_>
        ensures port { result.port ≡ port_in self.now.door }
        ensures operator { is_some result.operator ≡ is_some self.now.operator }
        ensures secret { secret_of result ≡ secret_in self.now }
    {
        let operator = match &self.operator {
            Some(operator) => Some(operator.port()),
            None => None,
        };
        Ports {
            port: self.door.port(),
            operator,
        }
    }
}

/// Work on the host of a file.
#[derive(Drop)]
pub enum Work {
    /// An operator's order.
    Order(HostOrder),
    /// Serves connections, by the machine's clock.
    Serve(Serving),
}

impl Work {
    pub(crate) fn is_report(&self) -> bool {
        matches!(self, Work::Order(HostOrder::Report))
    }
}

/// A task on a file.
#[derive(Drop)]
pub enum FileTask {
    /// Creates a host with these limits and this block digest.
    Init {
        limits: Limits,
        digest: BlockDigest,
    },
    /// Work on the host in it, opened with these settings, unless the clock is too far ahead of its
    /// last stamp.
    Host {
        tuning: Tuning,
        clock: ClockGiven,
        work: Work,
    },
}
