ghost use Rattle.std.specs.Prelude.{◌≡◌, is_some, option_map, IfOk, IsSomeAnd};
ghost use Rattle.bh_storage.specs.Calls.{Clean, IsAtRest};
ghost use Rattle.bh_host.specs.Resting.{StaysAtRest};
ghost use Rattle.bh_connection.specs.Listening.{WasLost, WasVisited, WereCounted, secret_of};
ghost use Rattle.bh_connection.specs.Visits.{RanFor};
ghost use Rattle.bh_wires.specs.Sweeping.{IsOwnLine};

use crate::files::{HostFiles, Site};
use crate::front::{Backing, Front, Terms};
use crate::group::group_number;
use crate::listener::Listener;
use crate::socket_file::listen_at;
use crate::sockets::{Bound, Sockets};
use crate::sweeping::own_line;
use bh_connection::{BackUp, Clock, Manner, Ports, serve_from};
use bh_operation::routes::Routes;
use bh_stage::stage::{Measures, Stage};
use bh_types::limits::Limits;
use mio::net::TcpListener;
use std::alloc::Global;
use std::fmt::Display;
use std::fs::{File, Files};
use std::net::{Ipv4Addr, Net, SocketAddr};
use std::{fs, io};

/// How many bytes of requests and answers are kept in memory, and how many in files.
const MEMORY: usize = 64 << 20;

const FILES: u64 = 4 << 30;

/// Files that the process has open beside those of connections.
const OTHER_FILES: usize = 64;

/// Where a server listens and keeps what has no room in memory.
#[derive(Clone, Copy)]
pub struct Places<'a> {
    /// How many connections there are at most.
    pub connections: usize,
    /// The path of the host's file, whose size is told to operators.
    pub file: &'a str,
    /// How the names of files begin that are made for requests and answers too long for memory. They
    /// have mode 0600, and their names are removed at once.
    pub spool: &'a str,
    /// The path of a Unix socket for clients, in place of their port. It has mode 0600.
    pub socket: Option<&'a str>,
    /// The group whose users may also connect to that socket, which then has mode 0660: its name in
    /// `/etc/group`, or its number.
    pub socket_group: Option<&'a str>,
    /// The path of a Unix socket for operators, in place of their port. It has mode 0600. There must
    /// be an entry for operators in `Ports`, whose port isn't used then.
    pub operator_socket: Option<&'a str>,
    /// By how many seconds the clock may run ahead of the machine's monotonic clock before a reading
    /// is refused.
    pub clock_step: u64,
    /// How many bytes of blocks that no reference names may stay before a sweep begins; `None` for a
    /// tenth of what is needed, or 64 MiB if that is more.
    pub keep_garbage: Option<u64>,
}

/// Serves `count` requests and lines on ports of 127.0.0.1, or on Unix sockets in their place, from
/// many connections at once: each is served as [`bh_connection::serve_from`] does once it is whole,
/// and answered while others come. An operator's stop ends it sooner: in each case the answers that
/// are due go out first. Once it listens, it logs each port or path to standard error. If a path
/// can't be listened on, or a group isn't known, the error says which one. The sockets' files are
/// removed when it ends.
pub fn serve_many<N: Net + Files<File = File> + AllocGlobal + Eprint, H: BackUp, C: Clock>(
    net: &N,
    routes: &Routes,
    host: &mut H,
    clock: &C,
    ports: Ports<'_>,
    manner: Manner,
    places: Places<'_>,
    count: u64,
) -> io::Result<()>
    requires { Clean H.IsIntact H.IsOpen host.old → IsAtRest H.IsSoundStore (H.seen host.old) }
    ensures stays { StaysAtRest H.IsIntact H.IsOpen H.IsSoundStore H.seen H.left host.old host.new }
    ensures lost { WasLost H.IsIntact H.IsOpen H.seen H.left (secret_of ports.entry) H.shows H.lost host.old host.new }
    ensures ran { H.IsIntact host.new → RanFor (is_some ports.entry.operator) H.IsOpen H.seen H.left host.old host.new }
    ensures visited { WasVisited H.IsIntact H.IsOpen H.seen H.left (secret_of ports.entry) host.old host.new }
    ensures counted { WereCounted H.IsIntact H.IsOpen H.seen H.left (secret_of ports.entry) (is_some ports.entry.operator)
        count result host.old host.new }
{
    let limits = host.limits();
    // Without memory for their names, the sizes of these aren't told.
    let files = HostFiles::of(net, places.file).ok();
    let site = Site {
        net,
        clock,
        path: places.spool,
        files: &files,
    };
    let mut front = front_on(&site, limits, ports, manner, places)?;
    let served = serve_from(net.alloc(), routes, host, &mut front, secret(ports), count);
    front.finish();
    served
}

/// A stage over sockets that listen on these ports, or on Unix sockets.
fn front_on<'a, N: Net + Files<File = File> + AllocGlobal + Eprint, C: Clock>(
    site: &'a Site<'a, N, C>,
    limits: Limits,
    ports: Ports<'a>,
    manner: Manner,
    places: Places<'a>,
) -> io::Result<Front<'a, Sockets<'a, N, C>, C>>
    ensures operated { IfOk result (λ front. front.has_operators ≡ is_some ports.entry.operator) }
    ensures sweep { IfOk result (λ front. IsSomeAnd front.sweep (IsOwnLine (secret_of ports.entry))) }
    ensures keeps { IfOk result (λ front. front.sweeping.limit ≡ places.entry.keep_garbage) }
{
    let alloc = site.net.alloc();
    let measures = measures_for(site.net, manner, places.connections);
    let logged = if manner.is_logged {
        measures.connections
    } else {
        0
    };
    let sweep = own_line(alloc, secret(ports))?;
    let mut stage = Stage::new(alloc, Sockets::new(alloc, site, logged)?, measures)?;
    if let Err(error) = listen(site.net, ports, places, stage.wires()) {
        stage.wires().leave();
        return Err(error);
    }
    let terms = Terms {
        limits,
        clock: site.clock,
        clock_step: places.clock_step,
        keep_garbage: places.keep_garbage,
        has_operators: ports.operator.is_some(),
        secret: secret(ports),
        is_logged: manner.is_logged,
    };
    Ok(Front::new(alloc, stage, terms, Some(sweep)))
}

/// How connections are served, of which at most so many are asked for.
fn measures_for<N: Files<File = File> + AllocGlobal>(
    files: &N,
    manner: Manner,
    connections: usize,
) -> Measures {
    Measures {
        timeout: manner.timeout.saturating_mul(1_000),
        connections: allowed(files, connections),
        memory: MEMORY,
        files: FILES,
    }
}

/// Listens for clients, and for operators if there is an entry for them. All memory was taken
/// before.
fn listen<'a, N: Net + Files<File = File> + AllocGlobal + Eprint, C: Clock>(
    net: &N,
    ports: Ports<'_>,
    places: Places<'a>,
    sockets: &mut Sockets<'a, N, C>,
) -> io::Result<()> {
    let clients = Place {
        option: "--socket",
        port: ports.port,
        path: places.socket,
        group: places.socket_group,
    };
    sockets.take_clients(bound(net, clients, "listening")?)?;
    let Some(operator) = ports.operator else {
        return Ok(());
    };
    let operators = Place {
        option: "--operator-socket",
        port: operator.port,
        path: places.operator_socket,
        group: None,
    };
    sockets.take_operators(bound(net, operators, "operators")?)
}

/// Where to listen: on a Unix socket, to which a group may connect, or else on a port of 127.0.0.1.
#[derive(Clone, Copy)]
struct Place<'a> {
    /// The option that names the path. An error names this, since its text holds 80 bytes.
    option: &'a str,
    port: u16,
    path: Option<&'a str>,
    group: Option<&'a str>,
}

/// The secret of operators, if they have one.
fn secret<'a>(ports: Ports<'a>) -> Option<&'a [u8]>
    ensures { option_map (λ s. s.now) result ≡ secret_of ports.entry }
{
    match ports.operator {
        Some(operator) => operator.secret,
        None => None,
    }
}

/// How many connections there may be: as many as asked for, but each may have two files, and the
/// process only so many.
fn allowed<N: Files<File = File> + AllocGlobal>(files: &N, asked: usize) -> usize {
    match open_files(files) {
        Some(most) => asked.min(most.saturating_sub(OTHER_FILES) / 2).max(1),
        None => asked,
    }
}

/// How many files the process may have open, if the system tells.
///
/// Linux, proc_pid_limits(5)
fn open_files<N: Files<File = File> + AllocGlobal>(files: &N) -> Option<usize> {
    let bytes = fs::read(files, "/proc/self/limits").ok()?;
    let text = str::from_utf8(bytes.as_slice()).ok()?;
    for line in text.lines() {
        if let Some(rest) = line.strip_prefix("Max open files") {
            return rest.split_whitespace().next()?.parse().ok();
        }
    }
    None
}

/// A listener, which is logged to standard error. If that can't be written, it is lost.
fn bound<'a, N: Net + Files<File = File> + AllocGlobal + Eprint>(
    net: &N,
    place: Place<'a>,
    what: &str,
) -> io::Result<Bound<'a>> {
    match place.path {
        Some(path) => match bound_file(net, path, place.group) {
            Ok(bound) => {
                let _ = eprintln!(net; "{what} on {path}");
                Ok(bound)
            }
            Err(error) => Err(not_bound(net.alloc(), place.option, error)),
        },
        None => bound_port(net, place.port, what),
    }
}

/// A listener on a Unix socket.
fn bound_file<'a, N: Net + Files<File = File> + AllocGlobal>(
    net: &N,
    path: &'a str,
    group: Option<&str>,
) -> io::Result<Bound<'a>> {
    let group = match group {
        Some(group) => Some(group_number(net, group)?),
        None => None,
    };
    let (listener, file) = listen_at(net, path, group)?;
    Ok(Bound {
        listener: Listener::File(listener),
        file: Some(file),
    })
}

/// A listener on a port of 127.0.0.1.
fn bound_port<'a, N: Net + AllocGlobal + Eprint>(
    net: &N,
    port: u16,
    what: &str,
) -> io::Result<Bound<'a>> {
    let address = SocketAddr::from((Ipv4Addr::LOCALHOST, port));
    let listener = match TcpListener::bind(net, address) {
        Ok(listener) => listener,
        Err(error) => return Err(not_bound(net.alloc(), address, error)),
    };
    if let Ok(address) = listener.local_addr() {
        let _ = eprintln!(net; "{what} on {address}");
    }
    Ok(Bound {
        listener: Listener::Port(listener),
        file: None,
    })
}

/// An error that names the place or the option. If memory for its text runs out, the error is unchanged.
fn not_bound<D: Display + Drop>(alloc: Global, place: D, error: io::Error) -> io::Error {
    match format!(in alloc; "unable to listen on {place}: {error}") {
        Ok(text) => io::Error::new(error.kind(), text.as_str()),
        Err(_) => error,
    }
}
