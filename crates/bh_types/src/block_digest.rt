ghost use Rattle.std.specs.Prelude.{◌≡◌, ◌≢◌, ◌≤◌, IfSome, IfNone};

/// The function that names the blocks of a host.
#[derive(Clone, Copy, PartialEq, Eq)]
pub enum BlockDigest {
    /// SHA-256 (FIPS 180-4).
    Sha256,
    /// SipHash-2-4 with two public keys, of 128 bits each.
    Fast,
}

impl BlockDigest {
    ghost use Rattle.bh_types.specs.BlockDigests.{digest_number};
    ghost use Rattle.bh_types.specs.declared.block_digest.BlockDigest.{BlockDigest as Named};

    /// Its number in a table's column: 0 or 1.
    pub fn number(self) -> u64
        ensures number { result ≡ digest_number self }
        ensures known { result ≤ 1 }
    {
        match self {
            BlockDigest::Sha256 => 0,
            BlockDigest::Fast => 1,
        }
    }

    /// The function with a column's number, or `None` if no function has it.
    pub fn from_number(number: u64) -> Option<BlockDigest>
        ensures value { IfSome result (λ digest. digest_number digest ≡ number) }
        ensures none { IfNone result ((digest : Named) → digest_number digest ≢ number) }
    {
        match number {
            0 => Some(BlockDigest::Sha256),
            1 => Some(BlockDigest::Fast),
            _ => None,
        }
    }
}
