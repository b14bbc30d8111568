//! What a stage asks of the sockets of a server.

use crate::spool::Spools;
use crate::waiting::{Patient, Shut};
use crate::whole::Door;
use bh_link::ends::{Sink, Source};
use std::io;

/// A connection that came, by its two ends.
#[derive(Drop)]
pub struct Came<R, W> {
    pub door: Door,
    pub reader: R,
    pub writer: W,
}

/// What an accept came to.
#[derive(Drop)]
pub enum Accepted<R, W> {
    One(Came<R, W>),
    /// No connection waits.
    Nobody,
    /// The system has no file descriptor or memory for one.
    NoRoom,
}

/// How a connection went: its answer went out, or it ended before.
#[derive(Clone, Copy)]
pub struct Ended<'a> {
    pub key: usize,
    pub door: Door,
    /// The first bytes that came, if it wasn't served.
    pub first: &'a [u8],
    /// How many bytes came, if it wasn't served.
    pub came: u64,
    /// The fixed answer, if memory or a file was wanting for its request; else nothing.
    pub answer: &'a [u8],
    /// How many bytes went out.
    pub sent: u64,
    /// How many milliseconds it took.
    pub took: u64,
}

/// The sockets of a server. No contract can say what a socket gives, nor that it is told of.
pub trait Wires {
    type Reader: Source + Spools + Drop;

    type Writer: Sink + Patient + Shut + Spools + Drop;

    /// The next connection, if one waits. From here on `poll` tells of it by this key.
    fn accept(&mut self, key: usize) -> io::Result<Accepted<Self::Reader, Self::Writer>>;

    /// Waits until a connection may go on or another one comes, but at most so many milliseconds,
    /// and pushes the keys of those that may.
    fn poll(&mut self, milliseconds: u64, ready: &mut Vec<usize>) -> io::Result<()>;

    /// A clock that doesn't go back, in milliseconds.
    fn milliseconds(&mut self) -> u64;

    /// Told once of each connection that was accepted.
    fn tell(&mut self, ended: &Ended<'_>);
}
