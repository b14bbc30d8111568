ghost use Rattle.std.specs.Prelude.{◌≡◌, false, is_some, option_map};
ghost use Rattle.bh_storage.specs.Calls.{Clean, IsAtRest};
ghost use Rattle.bh_host.specs.Resting.{StaysAtRest};
ghost use Rattle.bh_connection.specs.Connections.{IsTakenBack};
ghost use Rattle.bh_connection.specs.Listening.{HasListened, WasLost, WasVisited, WereCounted, secret_of};
ghost use Rattle.bh_connection.specs.Visits.{RanFor, secret_at};

use crate::acceptor::Acceptor;
use crate::backup::BackUp;
use crate::bounded::Current;
use crate::clock::Clock;
use crate::doors::{Doors, Operators};
use crate::group::serve_group;
use crate::sockets::{Manner, Sockets};
use bh_host::Caller;
use bh_operation::routes::Routes;
use std::alloc::Global;
use std::cell::RefCell;
use std::io;
use std::io::ErrorKind;
use std::net::{Ipv4Addr, Net, TcpListener, TcpStream};

/// Why serving ends after a backup over which the host was lost.
const LOST: &str = "the host is no longer open";

/// Why serving ends once an earlier failure of the disk has shut the store.
const SHUT: &str = "the disk failed, and the host is shut until it is opened again";

/// The port on 127.0.0.1 for operators.
#[derive(Clone, Copy)]
pub struct OperatorPort<'a> {
    /// With 0 the system chooses one.
    pub port: u16,
    /// The secret that a line begins with, before a space, if other processes may connect too.
    pub secret: Option<&'a [u8]>,
}

/// The ports on 127.0.0.1 on which a host is served; with 0 the system chooses one.
#[derive(Clone, Copy)]
pub struct Ports<'a> {
    pub port: u16,
    pub operator: Option<OperatorPort<'a>>,
}

/// Serves `count` connections on ports of 127.0.0.1, as [`serve_listener`] does. Once it listens,
/// it logs each port to standard error.
pub fn serve_port<
    N: Net<Stream = TcpStream, Listener = TcpListener> + AllocGlobal + Eprint,
    H: BackUp,
    C: Clock,
>(
    net: &N,
    routes: &Routes,
    host: &mut H,
    clock: &C,
    ports: Ports<'_>,
    manner: Manner,
    count: u64,
) -> io::Result<()>
    requires { Clean H.IsIntact H.IsOpen host.old → IsAtRest H.IsSoundStore (H.seen host.old) }
    ensures stays { StaysAtRest H.IsIntact H.IsOpen H.IsSoundStore H.seen H.left host.old host.new }
    ensures lost { WasLost H.IsIntact H.IsOpen H.seen H.left (secret_of ports.entry) H.shows H.lost host.old host.new }
    ensures ran { H.IsIntact host.new → RanFor (is_some ports.entry.operator) H.IsOpen H.seen H.left host.old host.new }
    ensures visited { WasVisited H.IsIntact H.IsOpen H.seen H.left (secret_of ports.entry) host.old host.new }
    ensures counted { WereCounted H.IsIntact H.IsOpen H.seen H.left (secret_of ports.entry) (is_some ports.entry.operator)
        count result host.old host.new }
{
    let clients = bound(net, ports.port)?;
    tell_address(net, "listening", &clients);
    match ports.operator {
        None => {
            let doors = Doors {
                clients: &clients,
                operators: None,
            };
            serve_listener(net, routes, host, doors, clock, manner, count)
        }
        Some(operator) => {
            let listener = bound(net, operator.port)?;
            tell_address(net, "operators", &listener);
            let doors = Doors {
                clients: &clients,
                operators: Some(Operators {
                    listener: &listener,
                    secret: operator.secret,
                }),
            };
            serve_listener(net, routes, host, doors, clock, manner, count)
        }
    }
}

/// A listener on a port of 127.0.0.1.
fn bound<N: Net<Stream = TcpStream, Listener = TcpListener> + AllocGlobal>(
    net: &N,
    port: u16,
) -> io::Result<TcpListener> {
    match TcpListener::bind(net, (Ipv4Addr::LOCALHOST, port)) {
        Ok(listener) => Ok(listener),
        Err(error) => Err(not_bound(net.alloc(), port, error)),
    }
}

/// An error that names the address. If memory for its text runs out, the error is unchanged.
fn not_bound(alloc: Global, port: u16, error: io::Error) -> io::Error {
    match format!(in alloc; "unable to listen on 127.0.0.1:{port}: {error}") {
        Ok(text) => io::Error::new(error.kind(), text.as_str()),
        Err(_) => error,
    }
}

/// Logs to standard error which port listens for whom. If that can't be written, it is lost.
fn tell_address<E: Eprint>(errors: &E, what: &str, listener: &TcpListener) {
    if let Ok(address) = listener.local_addr() {
        let _ = eprintln!(errors; "{what} on {address}");
    }
}

/// Serves `count` connections, one after another, as [`serve_from`] does. A connection that breaks
/// or times out counts, and serving goes on. A permanent fault of a listener, or a fault of the
/// clock, ends it. Whatever the sockets returned, only requests were applied, and orders if there
/// is a port for operators. Each tenant is answered as by a machine of its own.
pub fn serve_listener<E: Eprint + AllocGlobal, H: BackUp, C: Clock>(
    errors: &E,
    routes: &Routes,
    host: &mut H,
    doors: Doors<'_>,
    clock: &C,
    manner: Manner,
    count: u64,
) -> io::Result<()>
    requires { Clean H.IsIntact H.IsOpen host.old → IsAtRest H.IsSoundStore (H.seen host.old) }
    ensures stays { StaysAtRest H.IsIntact H.IsOpen H.IsSoundStore H.seen H.left host.old host.new }
    ensures lost { WasLost H.IsIntact H.IsOpen H.seen H.left (secret_at doors.entry.operators) H.shows H.lost host.old host.new }
    ensures ran { H.IsIntact host.new → RanFor (is_some doors.entry.operators) H.IsOpen H.seen H.left host.old host.new }
    ensures visited { WasVisited H.IsIntact H.IsOpen H.seen H.left (secret_at doors.entry.operators) host.old host.new }
    ensures counted { WereCounted H.IsIntact H.IsOpen H.seen H.left (secret_at doors.entry.operators)
        (is_some doors.entry.operators) count result host.old host.new }
{
    doors.make_ready()?;
    let current: Current = RefCell::new(None);
    let mut sockets = Sockets {
        alloc: errors.alloc(),
        doors,
        current: &current,
        clock,
        errors,
        manner,
        since: 0,
        last: Caller::Operator,
    };
    serve_from(
        errors.alloc(),
        routes,
        host,
        &mut sockets,
        doors.secret(),
        count,
    )
}

/// Serves `count` connections of an acceptor, in groups: one, or up to 64 clients' whose requests
/// are whole at the same moment and share a transaction. A client's is served as a request, an
/// operator's as a line, which begins with the secret if there is one. The clock is read after the
/// first accept of a group, and its connections are closed before the next accept. Before each group
/// the acceptor is told how many bytes nobody needs, if it wants to know, and after a sweep packs of which
/// nothing is named are removed. A fault of an
/// accept or of the clock ends it, and nothing is done after it. So does a backup over which the
/// host is lost, once it was answered, and the first group with a reply for which the store is
/// found shut: whoever opens the host again has all that was acknowledged. An operator's stop ends
/// it too, once it was answered, and that is no error.
pub fn serve_from<H: BackUp, A: Acceptor>(
    alloc: Global,
    routes: &Routes,
    host: &mut H,
    acceptor: &mut A,
    secret: Option<&[u8]>,
    count: u64,
) -> io::Result<()>
    requires { Clean H.IsIntact H.IsOpen host.old → IsAtRest H.IsSoundStore (H.seen host.old) }
    ensures stays { StaysAtRest H.IsIntact H.IsOpen H.IsSoundStore H.seen H.left host.old host.new }
    ensures lost { WasLost H.IsIntact H.IsOpen H.seen H.left (option_map (λ s. s.now) secret.entry) H.shows H.lost host.old host.new }
    ensures ran { H.IsIntact host.new → RanFor (A.operated acceptor.old) H.IsOpen H.seen H.left host.old host.new }
    ensures listened { HasListened H.IsIntact H.IsOpen H.seen H.left (option_map (λ s. s.now) secret.entry)
        (A.operated acceptor.old) H.lost (A.calls acceptor.old) (A.calls acceptor.new) count result host.old host.new }
{
    let mut served: u64 = 0;
    let mut swept = false;
    'groups: while served < count {
        prepare(host, acceptor, swept);
        let group = serve_group(alloc, routes, host, acceptor, secret, count - served)?;
        served += group.count;
        swept = group.sweeps;
        if group.stops {
            return Ok(());
        }
        if host.is_lost() {
            return Err(io::Error::new(ErrorKind::Other, LOST));
        }
        if group.is_shut {
            return Err(io::Error::new(ErrorKind::Other, SHUT));
        }
    }
    Ok(())
}

/// Done before each group. Packs that a sweep may have left without a byte that is named are removed, and the
/// acceptor is told what [`tell_count`] tells.
fn prepare<H: BackUp, A: Acceptor>(host: &mut H, acceptor: &mut A, swept: bool)
    requires { Clean H.IsIntact H.IsOpen host.old → IsAtRest H.IsSoundStore (H.seen host.old) }
    ensures rest { StaysAtRest H.IsIntact H.IsOpen H.IsSoundStore H.seen H.left host.old host.new }
    ensures stays { IsTakenBack H.IsIntact H.IsOpen H.seen H.left host.old host.new }
    ensures lost { H.lost host.new ≡ H.lost host.old }
    ensures calls { A.calls acceptor.new ≡ A.calls acceptor.old }
    ensures operated { A.operated acceptor.new ≡ A.operated acceptor.old }
{
    drop_after(host, swept);
    tell_count(host, acceptor);
}

/// After a sweep, removes packs of which nothing is named any more. A row that couldn't be deleted is tried
/// again after the next one.
pub fn drop_after<H: BackUp>(host: &mut H, swept: bool)
    requires { Clean H.IsIntact H.IsOpen host.old → IsAtRest H.IsSoundStore (H.seen host.old) }
    ensures rest { StaysAtRest H.IsIntact H.IsOpen H.IsSoundStore H.seen H.left host.old host.new }
    ensures stays { IsTakenBack H.IsIntact H.IsOpen H.seen H.left host.old host.new }
    ensures lost { H.lost host.new ≡ H.lost host.old }
    ensures still { swept ≡ false → host.new ≡ host.old }
{
    if swept {
        let _ = host.drop_packs();
    }
}

/// Tells an acceptor how the cache was used, and how many bytes nobody needs if it wants to know. It
/// isn't told these if memory or the store failed: a store that is shut ends serving with the next reply.
fn tell_count<H: BackUp, A: Acceptor>(host: &mut H, acceptor: &mut A)
    requires { Clean H.IsIntact H.IsOpen host.old → IsAtRest H.IsSoundStore (H.seen host.old) }
    ensures rest { StaysAtRest H.IsIntact H.IsOpen H.IsSoundStore H.seen H.left host.old host.new }
    ensures stays { IsTakenBack H.IsIntact H.IsOpen H.seen H.left host.old host.new }
    ensures lost { H.lost host.new ≡ H.lost host.old }
    ensures calls { A.calls acceptor.new ≡ A.calls acceptor.old }
    ensures operated { A.operated acceptor.new ≡ A.operated acceptor.old }
{
    acceptor.take_cache(host.cache_uses());
    if acceptor.wants_count() {
        if let Some(bytes) = host.unneeded() {
            acceptor.take_count(bytes);
        }
    }
}
