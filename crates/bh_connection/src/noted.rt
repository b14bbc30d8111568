ghost use Rattle.std.specs.Prelude.{◌≡◌};

use std::alloc::Global;
use std::io;
use std::io::{Read, Write};

/// A reader or a writer that records its first bytes, and the number of bytes that passed. A writer
/// records the bytes of its first call, even if they weren't written.
#[derive(Drop)]
pub(crate) struct Noted<T> {
    inner: T,
    first: Vec<u8>,
    /// The maximum number of bytes to record.
    most: usize,
    passed: u64,
}

impl<T> Noted<T> {
    pub(crate) fn new(alloc: Global, inner: T, most: usize) -> Noted<T> {
        Noted {
            inner,
            first: Vec::new(alloc),
            most,
            passed: 0,
        }
    }

    /// The first bytes; fewer if memory for them ran out.
    pub(crate) fn first(&self) -> &[u8] {
        self.first.as_slice()
    }

    /// The number of bytes that passed.
    pub(crate) fn passed(&self) -> u64 {
        self.passed
    }

    pub(crate) fn into_inner(self) -> T {
        self.inner
    }

    fn note(&mut self, bytes: &[u8])
        ensures { self.new.inner ≡ self.old.inner }
    {
        let room = self.most.saturating_sub(self.first.len());
        let count = if bytes.len() < room {
            bytes.len()
        } else {
            room
        };
        if self.first.extend_from_slice(&bytes[..count]).is_err() {
            self.most = 0;
        }
    }

    fn count(&mut self, bytes: usize)
        ensures { self.new.inner ≡ self.old.inner }
    {
        self.passed = self.passed.saturating_add(bytes as u64);
    }
}

impl<R: Read> Read for Noted<R> {
    ghost remaining = { λ it. R.remaining it.inner };

    fn read(&mut self, buf: &mut [u8]) -> io::Result<usize> {
        let count = self.inner.read(buf)?;
        self.note(&buf[..count]);
        self.count(count);
        Ok(count)
    }
}

impl<W: Write> Write for Noted<W> {
    ghost contents = { λ it. W.contents it.inner };

    fn write(&mut self, buf: &[u8]) -> io::Result<usize> {
        if self.first.len() == 0 {
            self.note(buf);
        }
        let count = self.inner.write(buf)?;
        self.count(count);
        Ok(count)
    }

    fn flush(&mut self) -> io::Result<()> {
        self.inner.flush()
    }
}
