//! A digester whose bytes are counted.

use bh_file::Meter;
use bh_schema::host::Digester;
use std::cell::Cell;

/// A digester that hands each call on to another one, and counts the bytes as done.
#[derive(Drop)]
pub(crate) struct Counted<'a, D> {
    inner: &'a D,
    meter: Cell<Meter>,
}

impl<'a, D> Counted<'a, D> {
    pub(crate) fn new(inner: &'a D, meter: Meter) -> Counted<'a, D> {
        Counted {
            inner,
            meter: Cell::new(meter),
        }
    }

    fn count(&self, bytes: usize) {
        let mut meter = self.meter.get();
        meter.add(bytes);
        self.meter.set(meter);
    }

    /// Ends the work.
    pub(crate) fn end(&self) {
        let mut meter = self.meter.get();
        meter.end();
        self.meter.set(meter);
    }
}

impl<'a, D: Digester> Digester for Counted<'a, D> {
    ghost digest_of = { D.digest_of };

    fn digest(&self, bytes: &[u8]) -> [u8; 32] {
        self.count(bytes.len());
        self.inner.digest(bytes)
    }

    fn digest_known(&self, bytes: &[u8], checksum: &[u8; 32]) -> [u8; 32] {
        self.count(bytes.len());
        self.inner.digest_known(bytes, checksum)
    }

    fn digest_eight(&self, bytes: &[u8], size: usize) -> [[u8; 32]; 8] {
        self.count(bytes.len());
        self.inner.digest_eight(bytes, size)
    }
}
