ghost use Rattle.std.specs.Prelude.{◌*◌, ◌≤◌, length};
ghost use Rattle.sha2.specs.Sha256.{sha256};
ghost use Rattle.bh_schema.specs.Digests.{AreNamed};
ghost use Rattle.bh_blocks.specs.SipHash.{siphash};

use crate::siphash::siphash;
use bh_schema::host::Digester;
use sha2::{Digest, Sha256};

/// The SHA-256 digests (FIPS 180-4) of the first eight blocks of `size` bytes, one after another.
fn each_alone(bytes: &[u8], size: usize) -> [[u8; 32]; 8]
    requires all { 8 * size ≤ length bytes.now }
    ensures { AreNamed sha256 size bytes.now result }
{
    let mut digests = [[0u8; 32]; 8];
    'blocks: for j in 0..8 {
        digests[j] = Sha256::digest(&bytes[j * size..(j + 1) * size]);
    }
    digests
}

/// SHA-256 (FIPS 180-4).
#[derive(Clone, Copy, PartialEq, Eq)]
pub struct Sha256Digester;

impl Digester for Sha256Digester {
    ghost digest_of = { sha256 };

    fn digest(&self, bytes: &[u8]) -> [u8; 32] {
        Sha256::digest(bytes)
    }

    fn digest_known(&self, _bytes: &[u8], checksum: &[u8; 32]) -> [u8; 32] {
        *checksum
    }

    fn digest_eight(&self, bytes: &[u8], size: usize) -> [[u8; 32]; 8] {
        if size % 64 == 0 {
            bh_lanes::digest_eight(bytes, size)
        } else {
            each_alone(bytes, size)
        }
    }
}

/// SipHash-2-4 with two public keys, of 128 bits each: 17 times as fast, but anyone can construct
/// bytes with the same digest.
#[derive(Clone, Copy, PartialEq, Eq)]
pub struct FastDigester;

impl Digester for FastDigester {
    ghost digest_of = { siphash };

    fn digest(&self, bytes: &[u8]) -> [u8; 32] {
        siphash(bytes)
    }

    fn digest_known(&self, bytes: &[u8], _checksum: &[u8; 32]) -> [u8; 32] {
        self.digest(bytes)
    }
}
