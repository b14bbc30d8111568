//! A disk whose reads are counted.

ghost use Rattle.std.specs.Prelude.{◌≡◌};
ghost use Rattle.bh_file.specs.Watched.{inner_of};

use crate::meter::Meter;
use sqlite_disk::{Disk, Tally};
use std::alloc::Global;
use std::cell::Cell;
use std::io;
use std::rc::Rc;

/// A meter that counts what is read from several disks.
pub(crate) type SharedMeter = Rc<Cell<Meter>, Global>;

/// Counts bytes as done.
fn count(meter: &SharedMeter, bytes: usize) {
    let mut counted = meter.get();
    counted.add(bytes);
    meter.set(counted);
}

/// Ends the work of a meter.
pub(crate) fn end(meter: &SharedMeter) {
    let mut counted = meter.get();
    counted.end();
    meter.set(counted);
}

/// A disk that hands each call on to another one, and counts the bytes that are read.
#[derive(Drop)]
pub struct Watched<D: Disk> {
    inner: D,
    meter: SharedMeter,
}

impl<D: Disk> Watched<D> {
    pub(crate) fn new(inner: D, meter: SharedMeter) -> Watched<D>
        ensures { inner_of result ≡ inner }
    {
        Watched { inner, meter }
    }
}

impl<D: Disk> Disk for Watched<D> {
    ghost seen = { λ f. D.Disk.seen f.inner };

    ghost may_leave = { λ f. D.Disk.may_leave f.inner };

    ghost is_usable = { λ f. D.Disk.is_usable f.inner };

    ghost faults = { λ f. D.Disk.faults f.inner };

    ghost tally_of = { λ f. D.Disk.tally_of f.inner };

    ghost is_clean = { λ f. D.Disk.is_clean f.inner };

    ghost key_of = { λ f. D.Disk.key_of f.inner };

    ghost is_fair = { λ f. D.Disk.is_fair f.inner };

    ghost is_frozen = { λ f. D.Disk.is_frozen f.inner };

    ghost is_rotten = { λ f. D.Disk.is_rotten f.inner };

    ghost is_mixing = { λ f. D.Disk.is_mixing f.inner };

    ghost seen_may_stay = { λ f. D.Disk.seen_may_stay f.inner };

    ghost fair_if_clean = { λ f. D.Disk.fair_if_clean f.inner };

    fn mixes(&self) -> bool {
        self.inner.mixes()
    }

    fn key(&self) -> u64 {
        self.inner.key()
    }

    fn tally(&self) -> Tally {
        self.inner.tally()
    }

    fn may_be_used(&self) -> bool {
        self.inner.may_be_used()
    }

    fn len(&mut self) -> io::Result<usize> {
        self.inner.len()
    }

    fn read_at(&mut self, at: usize, buf: &mut [u8]) -> io::Result<()> {
        count(&self.meter, buf.len());
        self.inner.read_at(at, buf)
    }

    fn read_checked(&mut self, key: u64, want: u64, at: usize, buf: &mut [u8]) -> io::Result<()> {
        count(&self.meter, buf.len());
        self.inner.read_checked(key, want, at, buf)
    }

    fn write_at(&mut self, at: usize, bytes: &[u8]) -> io::Result<()> {
        self.inner.write_at(at, bytes)
    }

    fn set_len(&mut self, len: usize) -> io::Result<()> {
        self.inner.set_len(len)
    }

    fn sync(&mut self) -> io::Result<()> {
        self.inner.sync()
    }
}
