//! Packs beside a host's database that aren't opened yet.

ghost use Rattle.std.specs.Prelude.{◌≡◌, IsTrue, IfOk};
ghost use Rattle.bh_shelf.specs.Contents.{Contents, nothing};
ghost use Rattle.bh_shelf.specs.Listed.{HasListed};

use crate::copied::CopyShelf;
use crate::no_shelf::NoShelf;
use std::fmt;

/// A row of a host's table of packs: a pack, and up to where its bytes were synced.
#[derive(Clone, Copy)]
pub struct Listed {
    /// Its number.
    pub pack: usize,
    /// Bytes.
    pub length: usize,
}

/// Packs beside a host's database that aren't opened yet.
pub trait ClosedPacks {
    /// The packs, once they are opened.
    type Open: CopyShelf + Drop;

    /// Why they can't be opened. Its `Display` is the message to the operator.
    type Fault: fmt::Display + Drop;

    /// What their files have.
    ghost has: { Self → Contents };

    /// Opens the packs that a host's database lists, each up to its length. All that is listed is kept, as
    /// the files have it. It is an error if some of it isn't there.
    fn open(self, listed: &[Listed]) -> Result<Self::Open, Self::Fault>
        ensures kept { IfOk result (λ packs. IsTrue (Self.Open.Shelf.is_clean packs)
            → HasListed listed.now (has self) (Self.Open.Shelf.kept packs)) }
        ensures seen { IfOk result (λ packs. IsTrue (Self.Open.Shelf.is_clean packs)
            → Self.Open.Shelf.seen packs ≡ Self.Open.Shelf.kept packs) };
}

/// A host's database lists packs, and is opened without any.
#[derive(Drop)]
pub struct NotEmpty;

impl fmt::Display for NotEmpty {
    fn fmt<W: fmt::Write>(&self, f: &mut fmt::Formatter<W>) -> fmt::Result {
        f.write_str("it has packs, and is opened without")
    }
}

/// A database that lists packs isn't opened without them.
impl ClosedPacks for NoShelf {
    type Open = NoShelf;

    type Fault = NotEmpty;

    ghost has = { λ _. nothing };

    fn open(self, listed: &[Listed]) -> Result<NoShelf, NotEmpty> {
        if listed.is_empty() {
            Ok(NoShelf)
        } else {
            Err(NotEmpty)
        }
    }
}
