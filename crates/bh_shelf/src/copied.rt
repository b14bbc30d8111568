//! Packs that can be copied.

ghost use Rattle.std.specs.Prelude.{◌≡◌, IsTrue, IfOk};
ghost use Rattle.bh_shelf.specs.Contents.{Within, Rises, KeepsHolds};

use crate::no_shelf::NoShelf;
use crate::shelf::Shelf;
use bh_packs::trouble::Trouble;

/// A shelf whose packs can be copied.
pub trait CopyShelf: Shelf {
    /// The copied packs.
    type Copy: Shelf + Drop;

    /// Copies all that is kept to a new place that belongs to this name, and syncs it. This shelf stays
    /// as it was.
    fn copy_to(&mut self, to: &str) -> Result<Self::Copy, Trouble>
        ensures copied { IfOk result (λ copy. IsTrue (Self.is_clean self.new) → IsTrue (Self.Copy.Shelf.is_clean copy)
            → Within (Self.kept self.old) (Self.Copy.Shelf.stood copy)) }
        ensures seen { IsTrue (Self.is_clean self.new) → Self.seen self.new ≡ Self.seen self.old }
        ensures ends { Rises (Self.ends self.old) (Self.ends self.new) }
        ensures kept { IsTrue (Self.is_clean self.new) → Self.kept self.new ≡ Self.kept self.old }
        ensures stood { IsTrue (Self.is_clean self.new) → Within (Self.stood self.old) (Self.stood self.new) }
        ensures clean { IsTrue (Self.is_clean self.new) → IsTrue (Self.is_clean self.old) }
        ensures holds { KeepsHolds (Self.holds self.old) (Self.holds self.new) };
}

/// Nothing is to be copied.
impl CopyShelf for NoShelf {
    type Copy = NoShelf;

    fn copy_to(&mut self, _to: &str) -> Result<NoShelf, Trouble> {
        Ok(NoShelf)
    }
}
