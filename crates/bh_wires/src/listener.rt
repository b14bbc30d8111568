//! A listener and its connections, on a port or on a Unix socket. No call waits.

ghost use Rattle.std.specs.Io.{ReadsAtMost, WritesAtMost};

use mio::net::{TcpListener, TcpStream, UnixListener, UnixStream};
use mio::{Interest, Registry, Token};
use std::io;
use std::io::{Read, Write};
use std::net::Shutdown;
use std::os::fd::{AsRawFd, RawFd};

/// A listener.
#[derive(Drop)]
pub(crate) enum Listener {
    Port(TcpListener),
    File(UnixListener),
}

/// The socket of a connection.
#[derive(Drop)]
pub(crate) enum Stream {
    Port(TcpStream),
    File(UnixStream),
}

impl Listener {
    /// The next connection.
    pub(crate) fn accept(&self) -> io::Result<Stream> {
        match self {
            Listener::Port(listener) => {
                let (stream, _) = listener.accept()?;
                let _ = stream.set_nodelay(true);
                Ok(Stream::Port(stream))
            }
            Listener::File(listener) => {
                let (stream, _) = listener.accept()?;
                Ok(Stream::File(stream))
            }
        }
    }

    /// From here on it is told under this token when a connection comes.
    pub(crate) fn register(&mut self, registry: &Registry, token: Token) -> io::Result<()> {
        match self {
            Listener::Port(listener) => registry.register(listener, token, Interest::READABLE),
            Listener::File(listener) => registry.register(listener, token, Interest::READABLE),
        }
    }
}

impl Stream {
    /// From here on it is told under this token when it may go on.
    pub(crate) fn register(&mut self, registry: &Registry, token: Token) -> io::Result<()> {
        let interest = Interest::READABLE | Interest::WRITABLE;
        match self {
            Stream::Port(stream) => registry.register(stream, token, interest),
            Stream::File(stream) => registry.register(stream, token, interest),
        }
    }

    /// From here on nothing is told of it.
    pub(crate) fn deregister(&mut self, registry: &Registry) -> io::Result<()> {
        match self {
            Stream::Port(stream) => registry.deregister(stream),
            Stream::File(stream) => registry.deregister(stream),
        }
    }

    /// Reads some bytes to the front of the room. Returns how many; 0 at the end.
    pub(crate) fn read(&self, room: &mut [u8]) -> io::Result<usize>
        ensures { ReadsAtMost result room.new }
    {
        match self {
            Stream::Port(stream) => {
                let mut stream: &TcpStream = stream;
                stream.read(room)
            }
            Stream::File(stream) => {
                let mut stream: &UnixStream = stream;
                stream.read(room)
            }
        }
    }

    /// Writes the first of these bytes. Returns how many.
    pub(crate) fn write(&self, bytes: &[u8]) -> io::Result<usize>
        ensures { WritesAtMost result bytes.now }
    {
        match self {
            Stream::Port(stream) => {
                let mut stream: &TcpStream = stream;
                stream.write(bytes)
            }
            Stream::File(stream) => {
                let mut stream: &UnixStream = stream;
                stream.write(bytes)
            }
        }
    }

    /// Closes the writing half.
    pub(crate) fn shut(&self) -> io::Result<()> {
        match self {
            Stream::Port(stream) => stream.shutdown(Shutdown::Write),
            Stream::File(stream) => stream.shutdown(Shutdown::Write),
        }
    }

    pub(crate) fn fd(&self) -> RawFd {
        match self {
            Stream::Port(stream) => stream.as_raw_fd(),
            Stream::File(stream) => stream.as_raw_fd(),
        }
    }
}
