use std::io::ErrorKind;
use std::time::Duration;
use std::{io, time};

/// The clock by which connections are served.
pub trait Clock {
    /// Its reading: whole seconds since 1970.
    fn seconds(&self) -> io::Result<u64>;

    /// Milliseconds since some moment, to measure time.
    fn milliseconds(&self) -> io::Result<u64>;

    /// Waits this long.
    fn wait(&self, duration: Duration);
}

impl<C: Clock> Clock for &C {
    fn seconds(&self) -> io::Result<u64> {
        (**self).seconds()
    }

    fn milliseconds(&self) -> io::Result<u64> {
        (**self).milliseconds()
    }

    fn wait(&self, duration: Duration) {
        (**self).wait(duration);
    }
}

/// The clock of a machine, such as the runtime's. A time before 1970 is read as 0.
#[derive(Clone, Copy, Drop)]
pub struct MachineClock<C>(pub C);

impl<C: time::Clock> Clock for MachineClock<C> {
    fn seconds(&self) -> io::Result<u64> {
        match self.0.since_1970() {
            Ok(since) => Ok(since.as_secs()),
            Err(e) if e.kind() == ErrorKind::InvalidData => Ok(0),
            Err(e) => Err(e),
        }
    }

    fn milliseconds(&self) -> io::Result<u64> {
        let since = self.0.monotonic()?;
        Ok(u64::try_from(since.as_millis()).unwrap_or(u64::MAX))
    }

    fn wait(&self, duration: Duration) {
        self.0.sleep(duration);
    }
}
