//! Readers that break, and writers that take no more.

use std::alloc::Global;
use std::io;
use std::io::{Chain, ErrorKind, Read, Write};

/// The place at which a connection is cut: how many bytes its reader returns before it fails, and
/// how many its writer takes before it takes none, or fails.
#[derive(Clone, Copy)]
pub struct Cut {
    pub reads: Option<usize>,
    pub writes: usize,
    pub fails: bool,
}

/// No cut.
pub const WHOLE: Cut = Cut {
    reads: None,
    writes: usize::MAX,
    fails: false,
};

/// `read 70` or `write 10`; anything else cuts nothing.
pub fn cut_of(line: &str) -> Cut {
    let mut cut = WHOLE;
    match line.split_once(' ') {
        Some(("read", count)) => cut.reads = count.parse::<usize>().ok(),
        Some(("write", count)) => cut.writes = count.parse::<usize>().unwrap_or(0),
        _ => {}
    }
    cut
}

/// The end of a reader's bytes, or a fault there.
#[derive(Drop)]
pub struct Last {
    fails: bool,
}

impl Read for Last {
    fn read(&mut self, _buf: &mut [u8]) -> io::Result<usize> {
        if self.fails {
            return Err(io::Error::from(ErrorKind::ConnectionReset));
        }
        Ok(0)
    }
}

/// Gives these bytes, or the first ones and then a fault.
pub fn reader(bytes: &[u8], reads: Option<usize>) -> Chain<&[u8], Last> {
    match reads {
        Some(count) => bytes[..count.min(bytes.len())].chain(Last { fails: true }),
        None => bytes.chain(Last { fails: false }),
    }
}

/// A sink that takes a number of bytes, and then none, or fails.
#[derive(Drop)]
pub struct Narrow {
    pub held: Vec<u8>,
    room: usize,
    fails: bool,
}

impl Narrow {
    pub fn new(alloc: Global, cut: Cut) -> Narrow {
        Narrow {
            held: Vec::new(alloc),
            room: cut.writes,
            fails: cut.fails,
        }
    }
}

impl Write for Narrow {
    fn write(&mut self, buf: &[u8]) -> io::Result<usize> {
        if self.fails && self.room == 0 {
            return Err(io::Error::from(ErrorKind::BrokenPipe));
        }
        let count = buf.len().min(self.room);
        self.held.extend_from_slice(&buf[..count])?;
        self.room -= count;
        Ok(count)
    }

    fn flush(&mut self) -> io::Result<()> {
        Ok(())
    }
}
