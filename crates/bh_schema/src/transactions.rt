ghost use Rattle.std.specs.Prelude.{◌≡◌, ◌⊎◌, OnOk, OnErr};
ghost use Rattle.bh_tables.specs.Typed.{Tables};
ghost use Rattle.bh_view.specs.Bodies.{IsSoundHost};
ghost use Rattle.bh_storage.specs.Calls.{IsAtRest, IsWorking, LeavesNothingNew, Commits, TakesBack};
ghost use Rattle.bh_schema.specs.Storage.{IsClean, IsIntact, IsOpen, seen, left, Works, Keeps, KeepsSettings, Empties};

use crate::host::{Digester, Host};
use crate::trouble::or_trouble;
use bh_shelf::shelf::Shelf;
use bh_storage::error::Trouble;
use sqlite::Alter;

impl<S: Alter + Drop, P: Shelf + Drop, D: Digester + Drop> Host<S, P, D> {
    /// Opens a transaction. Fails if a fault has shut the connection.
    pub fn begin(&mut self) -> Result<(), Trouble>
        requires { IsClean S.Store P.Shelf self.old → IsAtRest (IsSoundHost D.digest_of) (seen S.Store P.Shelf self.old) }
        ensures within { Keeps S.Store P.Shelf self.old self.new }
        ensures survives { IsIntact S.Store P.Shelf self.new → LeavesNothingNew (left S.Store P.Shelf) self.old self.new }
        ensures opens { OnOk result (IsIntact S.Store P.Shelf self.new → IsOpen S.Store P.Shelf self.old
            × IsOpen S.Store P.Shelf self.new) }
        ensures same { OnOk result (IsIntact S.Store P.Shelf self.new
            → (seen S.Store P.Shelf self.new).now ≡ (seen S.Store P.Shelf self.old).now) }
        ensures working { OnOk result (IsIntact S.Store P.Shelf self.new
            → IsWorking (IsSoundHost D.digest_of) (seen S.Store P.Shelf self.new)) }
        ensures settings { KeepsSettings S.Store P.Shelf self.old self.new }
    {
        or_trouble(self.connection.begin())?;
        Ok(())
    }

    /// Commits the transaction. The changes then survive a crash.
    pub fn commit(&mut self) -> Result<(), Trouble>
        requires { Works S.Store P.Shelf D.digest_of self.old }
        ensures intact { IsIntact S.Store P.Shelf self.new → IsIntact S.Store P.Shelf self.old }
        ensures opened { IsIntact S.Store P.Shelf self.new → IsOpen S.Store P.Shelf self.new → IsOpen S.Store P.Shelf self.old }
        ensures opens { OnOk result (IsIntact S.Store P.Shelf self.new → IsOpen S.Store P.Shelf self.old
            × IsOpen S.Store P.Shelf self.new) }
        ensures done { OnOk result (IsIntact S.Store P.Shelf self.new
            → Commits (seen S.Store P.Shelf self.old) (seen S.Store P.Shelf self.new)) }
        ensures survives { OnOk result (IsIntact S.Store P.Shelf self.new → (x : Tables) → left S.Store P.Shelf self.new x
            → x ≡ (seen S.Store P.Shelf self.old).now) }
        ensures crash { OnErr result (IsOpen S.Store P.Shelf self.old → IsIntact S.Store P.Shelf self.new → (x : Tables)
            → left S.Store P.Shelf self.new x
            → left S.Store P.Shelf self.old x ⊎ (x ≡ (seen S.Store P.Shelf self.old).now)) }
        ensures kept { OnErr result (IsClean S.Store P.Shelf self.new
            → (seen S.Store P.Shelf self.new).kept ≡ (seen S.Store P.Shelf self.old).kept) }
        ensures limits { (seen S.Store P.Shelf self.new).limits ≡ (seen S.Store P.Shelf self.old).limits }
        ensures settings { KeepsSettings S.Store P.Shelf self.old self.new }
    {
        or_trouble(self.connection.commit())?;
        Ok(())
    }

    /// Rolls back the transaction, if one is open: the tables are those that were committed. The
    /// cache of blocks is emptied.
    pub fn take_back(&mut self)
        ensures intact { IsIntact S.Store P.Shelf self.new → IsIntact S.Store P.Shelf self.old }
        ensures opened { IsIntact S.Store P.Shelf self.new → IsOpen S.Store P.Shelf self.new → IsOpen S.Store P.Shelf self.old }
        ensures survives { IsIntact S.Store P.Shelf self.new → LeavesNothingNew (left S.Store P.Shelf) self.old self.new }
        ensures back { IsClean S.Store P.Shelf self.new → TakesBack (seen S.Store P.Shelf self.old) (seen S.Store P.Shelf self.new) }
        ensures limits { (seen S.Store P.Shelf self.new).limits ≡ (seen S.Store P.Shelf self.old).limits }
        ensures settings { Empties S.Store P.Shelf self.old self.new }
    {
        self.connection.take_back();
        // Blocks that were stored in the transaction are gone.
        self.cache.clear();
    }
}
