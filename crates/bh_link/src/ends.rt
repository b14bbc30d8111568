//! The ends that a link reads from and writes to.

ghost use Rattle.std.specs.Prelude.{◌<◌, ◌∷◌, ℕ, List, [], length, Option, None};
ghost use Rattle.std.specs.Io.{ReadsAtMost, WritesAtMost};
ghost use Rattle.std.specs.Io.KnownBytes.{ReadConsumes, WriteAppends};
ghost use Rattle.bh_http.specs.Transfers.{Transfer, transfer_of, Logs};

use std::io;
use std::io::{Read, Write};

/// A source of bytes. It may record the bytes that are still to come, and the results of its calls.
pub trait Source {
    /// The bytes that it will return from here on, if it records them.
    ghost remaining: { Self → Option (List ℕ) } = { λ _. None };

    /// The results of its calls, oldest first, if it records them.
    ghost transfers: { Self → Option (List Transfer) } = { λ _. None };

    /// Writes some of the next bytes to the front of the buffer, and returns their number; 0 at the
    /// end.
    fn give(&mut self, room: &mut [u8]) -> io::Result<usize>
        requires { 0 < length room.old }
        ensures within { ReadsAtMost result room.new }
        ensures bytes { ReadConsumes (remaining self.old) (remaining self.new) result room.new }
        ensures transfer { Logs (transfers self.old) (transfers self.new) (transfer_of result room.new ∷ []) };
}

/// A sink of bytes. It may record the bytes that it has, and the results of its calls.
pub trait Sink {
    /// The bytes that it has, if it records them.
    ghost contents: { Self → Option (List ℕ) } = { λ _. None };

    /// The results of its calls, oldest first, if it records them.
    ghost transfers: { Self → Option (List Transfer) } = { λ _. None };

    /// Writes the first of these bytes and returns their number; 0 if it takes no more.
    fn take(&mut self, bytes: &[u8]) -> io::Result<usize>
        requires { 0 < length bytes.now }
        ensures within { WritesAtMost result bytes.now }
        ensures bytes { WriteAppends (contents self.old) (contents self.new) result bytes.now }
        ensures transfer { Logs (transfers self.old) (transfers self.new) (transfer_of result bytes.now ∷ []) };
}

/// A reader or a writer, as a source or a sink that doesn't record its calls.
#[derive(Clone, Copy, Drop)]
pub struct Untold<T>(pub T);

impl<R: Read> Source for Untold<R> {
    ghost remaining = { λ it. R.remaining it.0 };

    fn give(&mut self, room: &mut [u8]) -> io::Result<usize> {
        self.0.read(room)
    }
}

impl<W: Write> Sink for Untold<W> {
    ghost contents = { λ it. W.contents it.0 };

    fn take(&mut self, bytes: &[u8]) -> io::Result<usize> {
        self.0.write(bytes)
    }
}
