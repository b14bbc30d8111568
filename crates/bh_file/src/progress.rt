//! How far a long work is, as a text for the operator.

ghost use Rattle.std.specs.Prelude.{◌≡◌};
ghost use Rattle.bh_file.specs.Progress as spec;

use std::fmt;

/// A work whose progress is shown.
#[derive(Clone, Copy, PartialEq, Eq)]
pub enum Work {
    /// A host's files are opened.
    Open,
    /// A host's file is copied.
    Copy,
    /// A host's blocks are checked.
    Check,
    /// A tenant's blocks are written to a new host.
    Export,
    /// A tenant's blocks are added to a host.
    Import,
}

impl fmt::Display for Work {
    fn fmt<W: fmt::Write>(&self, f: &mut fmt::Formatter<W>) -> fmt::Result {
        f.write_str(match self {
            Work::Open => "open",
            Work::Copy => "copy",
            Work::Check => "check",
            Work::Export => "export",
            Work::Import => "import",
        })
    }
}

/// A number of bytes, printed in the largest decimal unit that it fills (SI: 1 kB is 1,000 bytes).
#[derive(Clone, Copy)]
struct Bytes(u64);

impl fmt::Display for Bytes {
    fn fmt<W: fmt::Write>(&self, f: &mut fmt::Formatter<W>) -> fmt::Result {
        let (unit, name) = match self.0 {
            0..1_000 => return write!(f, "{} B", self.0),
            1_000..1_000_000 => (1_000, "kB"),
            1_000_000..1_000_000_000 => (1_000_000, "MB"),
            _ => (1_000_000_000, "GB"),
        };
        if self.0 / unit < 10 {
            write!(
                f,
                "{}.{} {name}",
                self.0 / unit,
                self.0 % unit / (unit / 10)
            )
        } else {
            write!(f, "{} {name}", self.0 / unit)
        }
    }
}

/// Seconds, printed in seconds, or from two minutes on in minutes.
#[derive(Clone, Copy)]
struct Seconds(u64);

impl fmt::Display for Seconds {
    fn fmt<W: fmt::Write>(&self, f: &mut fmt::Formatter<W>) -> fmt::Result {
        if self.0 < 120 {
            write!(f, "{} s", self.0)
        } else {
            write!(f, "{} min", self.0 / 60)
        }
    }
}

/// How far a work is. Its `Display` is as `check: 42 % of 1.2 GB, 310 MB/s, 2 s left`, or if nobody
/// knows how much there is to do as `export: 500 MB, 45 MB/s`.
#[derive(Clone, Copy)]
pub struct Progress {
    pub work: Work,
    /// How many bytes are done.
    pub done: u64,
    /// How many bytes there are to do; 0 if that isn't known.
    pub total: u64,
    /// How many bytes were done in each second so far.
    pub speed: u64,
}

impl Progress {
    /// The percentage of bytes that are done, rounded down.
    fn percent(&self) -> u64
        ensures { result ≡ spec.percent self.now.done self.now.total }
    {
        (self.done / (self.total / 100).max(1)).min(100)
    }

    /// How many seconds the rest takes at this speed, rounded up.
    fn seconds_left(&self) -> u64
        ensures { result ≡ spec.seconds_left self.now.done self.now.total self.now.speed }
    {
        self.total
            .saturating_sub(self.done)
            .div_ceil(self.speed.max(1))
    }
}

impl fmt::Display for Progress {
    fn fmt<W: fmt::Write>(&self, f: &mut fmt::Formatter<W>) -> fmt::Result {
        let (work, speed) = (self.work, Bytes(self.speed));
        if self.total == 0 {
            return write!(f, "{work}: {}, {speed}/s", Bytes(self.done));
        }
        write!(
            f,
            "{work}: {} % of {}, {speed}/s, {} left",
            self.percent(),
            Bytes(self.total),
            Seconds(self.seconds_left())
        )
    }
}
