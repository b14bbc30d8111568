ghost use Rattle.std.specs.Prelude.{◌≡◌, ◌≤◌, ◌*◌, ℕ, List, length};
ghost use Rattle.sha2.specs.Sha256.{sha256};
ghost use Rattle.bh_schema.specs.Digests.{AreNamed};

use bh_base::connection::Connection;
use bh_cache::blocks::BlockCache;
use bh_shelf::shelf::Shelf;
use bh_storage::error::StepError;
use bh_types::limits::Limits;
use bh_types::refusal::Refusal;
use sqlite::Alter;

/// A function from bytes to 32 bytes, one for each type. Nothing else is assumed about it.
pub trait Digester {
    /// The digest of some bytes.
    ghost digest_of: { List ℕ → List ℕ };

    fn digest(&self, bytes: &[u8]) -> [u8; 32]
        ensures { result ≡ digest_of bytes.now };

    /// The digest of bytes whose SHA-256 digest (FIPS 180-4) is given: with SHA-256 they needn't be
    /// hashed again.
    fn digest_known(&self, bytes: &[u8], checksum: &[u8; 32]) -> [u8; 32]
        requires { checksum.now ≡ sha256 bytes.now }
        ensures { result ≡ digest_of bytes.now };

    /// The digests of the first eight blocks of `size` bytes each, in their order. A digester that
    /// can compute them side by side has its own body.
    fn digest_eight(&self, bytes: &[u8], size: usize) -> [[u8; 32]; 8]
        requires all { 8 * size ≤ length bytes.now }
        ensures { AreNamed digest_of size bytes.now result }
    {
        let mut digests = [[0u8; 32]; 8];
        'blocks: for j in 0..8 {
            digests[j] = self.digest(&bytes[j * size..(j + 1) * size]);
        }
        digests
    }
}

/// The result of an operator's command that returns no value.
pub type Carried = Result<(), StepError<Refusal>>;

/// A host of buckets in a SQL database.
#[derive(Drop)]
pub struct Host<S: Alter + Drop, P: Shelf + Drop, D: Digester + Drop> {
    /// The database.
    pub connection: Connection<S, P>,
    /// Names blocks of bytes.
    pub digester: D,
    /// The limits that the host was created with.
    pub limits: Limits,
    /// This process's settings, and its cache of blocks.
    pub cache: BlockCache,
}

impl<S: Alter + Drop, P: Shelf + Drop, D: Digester + Drop> Host<S, P, D> {
    /// The host's database.
    pub fn into_connection(self) -> Connection<S, P>
        ensures { result ≡ self.connection }
    {
        let Host {
            connection,
            digester: _,
            limits: _,
            cache: _,
        } = self;
        connection
    }
    /// How many blocks are cached, at most `cache_blocks`.
    pub fn cached(&self) -> usize
        ensures { result ≤ self.now.cache.tuning.cache_blocks }
    {
        self.cache.cached()
    }
}
