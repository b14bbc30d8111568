//! Where bytes are in packs, and what goes with a pack.

ghost use Rattle.std.specs.Prelude.{◌≡◌};
ghost use Rattle.bh_packs.specs.Sums.{sum_of};

use sqlite_disk::digest_of;

/// Where some bytes are: so many at an offset of a pack, with their sum.
#[derive(Clone, Copy)]
pub struct Place {
    pub pack: usize,
    pub offset: usize,
    pub size: usize,
    pub sum: u64,
}

/// Who appends to a pack: all small bodies, one large body at a time, or nobody, as if a copy shares its file.
#[derive(Clone, Copy, PartialEq, Eq)]
pub enum Lane {
    Small,
    Large(Large),
    Nobody,
}

/// One of the eight lanes of large bodies.
#[derive(Clone, Copy, PartialEq, Eq)]
pub enum Large {
    First,
    Second,
    Third,
    Fourth,
    Fifth,
    Sixth,
    Seventh,
    Eighth,
}

/// How many packs there may be, removed ones included, and how many bytes each may have.
#[derive(Clone, Copy)]
pub struct Bounds {
    pub packs: usize,
    pub bytes: usize,
}

impl Bounds {
    /// Packs of at most 1 GiB, and at most 1,048,576 of them.
    pub const USUAL: Bounds = Bounds {
        packs: 1_048_576,
        bytes: 1_073_741_824,
    };
}

/// That a pack may not be removed, until this is given back. Nobody else can make one.
#[derive(Drop)]
pub struct Hold {
    pub(crate) pack: usize,
}

/// The sum of some bytes, by which a wrong bit is found.
pub fn sum_of(bytes: &[u8]) -> u64
    ensures { result ≡ sum_of bytes.now }
{
    digest_of(0, bytes)
}
