//! A connection to a host.

use crate::transactions;
use crate::trouble::{error_of, without_room};
use bh_packs::place::{Lane, Place};
use bh_packs::trouble::Trouble;
use bh_shelf::shelf::Shelf;
use sqlite::{Alter, Connection as Database, Error};

/// A host's database, and the packs that have bytes of its blocks.
#[derive(Drop)]
pub struct Connection<S: Alter, P: Shelf> {
    pub database: Database<S>,
    pub packs: P,
}

impl<S: Alter, P: Shelf> Connection<S, P> {
    ghost use Rattle.std.specs.Prelude.{◌≡◌, ◌⊎◌, true, false, length, IfOk, IfSome, IfErr, OnOk, OnErr};
    ghost use Rattle.bh_packs.specs.Sums.{sum_of};
    ghost use Rattle.bh_tables.specs.Schema.{Octets};
    ghost use Rattle.sqlite.specs.Tree.{Trees};
    ghost use Rattle.sqlite_trees.specs.Objects.{catalog_tree};
    ghost use Rattle.sqlite_catalog.specs.Listing.{Lists};
    ghost use Rattle.bh_rows.specs.Means.{is_trouble};
    ghost use Rattle.bh_base.specs.Placed.{IsWhole};
    ghost use Rattle.bh_base.specs.Connections.{IsIntact, IsOpen, IsClean, state, stands, StaysWithin, WasOpen, ChangesNothing, AreSynced};
    ghost use Rattle.bh_shelf.specs.Contents.{AreSameBut};
    ghost use Rattle.bh_base.specs.Connections.{HasAt, InMidst, contents};
    ghost use Rattle.bh_base.specs.Removal.{IsUnnamed, IsGone};
    ghost use Rattle.bh_base.specs.Layer.{Leaves, begun, committed, taken_back, KeepsDisk, LeavesNothingNew, Unwinds};

    /// Begins a transaction. What was appended in one that was rolled back is a gap.
    pub fn begin(&mut self) -> Result<usize, Error>
        ensures opens { OnOk result (WasOpen S.Store P.Shelf self.old self.new) }
        ensures begins { OnOk result (IsIntact S.Store P.Shelf self.new
            → stands S.Store P.Shelf self.new ≡ begun (stands S.Store P.Shelf self.old)) }
        ensures within { StaysWithin S.Store P.Shelf self.old self.new }
        ensures survives { LeavesNothingNew (state S.Store P.Shelf self.old) (state S.Store P.Shelf self.new) }
        ensures trouble { IfErr result (λ e. IsIntact S.Store P.Shelf self.new
            → (IsClean S.Store P.Shelf self.old → (stands S.Store P.Shelf self.old).inside ≡ false) → is_trouble e ≡ true) }
    {
        match transactions::begin(&mut self.database) {
            Ok(count) => {
                self.packs.forget();
                Ok(count)
            }
            Err(error) => Err(error),
        }
    }

    /// Appends bytes to a pack, so that rows of this transaction may name their place. None if packs have no
    /// room, or if there are no bytes.
    pub fn append(&mut self, lane: Lane, bytes: &[u8]) -> Result<Option<Place>, Error>
        requires { InMidst S.Store P.Shelf self.old }
        ensures within { StaysWithin S.Store P.Shelf self.old self.new }
        ensures same { IsClean S.Store P.Shelf self.new → stands S.Store P.Shelf self.new ≡ stands S.Store P.Shelf self.old }
        ensures rows { self.new.database ≡ self.old.database }
        ensures placed { IfOk result (λ found. IfSome found (λ place. IsClean S.Store P.Shelf self.new
            → HasAt S.Store P.Shelf self.new place bytes.now)) }
        ensures size { IfOk result (λ found. IfSome found (λ place. place.size ≡ length bytes.now)) }
        ensures sum { IfOk result (λ found. IfSome found (λ place. place.sum ≡ sum_of bytes.now)) }
        ensures trouble { IfErr result (λ e. is_trouble e ≡ true) }
    {
        if bytes.is_empty() {
            return Ok(None);
        }
        match self.packs.append(lane, bytes) {
            Ok(place) => Ok(Some(place)),
            Err(trouble) => without_room(trouble),
        }
    }

    /// Reads the bytes of a place. Bytes that don't have its sum are an error.
    pub fn read(&mut self, place: Place, room: &mut [u8]) -> Result<(), Error>
        requires { length room.old ≡ place.size }
        ensures within { StaysWithin S.Store P.Shelf self.old self.new }
        ensures same { ChangesNothing S.Store P.Shelf self.old self.new }
        ensures rows { self.new.database ≡ self.old.database }
        ensures bytes { OnOk result (IsClean S.Store P.Shelf self.new → (bytes : Octets)
            → HasAt S.Store P.Shelf self.old place bytes → room.new ≡ bytes) }
        ensures tested { OnOk result (sum_of room.new ≡ place.sum) }
        ensures trouble { IfErr result (λ e. is_trouble e ≡ true) }
    {
        // Asked for what it ensures: outside a transaction, what is standing was committed.
        let _outside = self.database.is_autocommit();
        match self.packs.read(place, room) {
            Ok(()) => Ok(()),
            Err(fault) => Err(error_of(fault)),
        }
    }

    /// Syncs what was appended to packs, so that a commit may name it.
    fn sync(&mut self) -> Result<(), Trouble>
        ensures synced { OnOk result (AreSynced P.Shelf self.new.packs) }
        ensures within { StaysWithin S.Store P.Shelf self.old self.new }
        ensures survives { LeavesNothingNew (state S.Store P.Shelf self.old) (state S.Store P.Shelf self.new) }
        ensures same { ChangesNothing S.Store P.Shelf self.old self.new }
    {
        // Asked for what it ensures: outside a transaction, what is standing was committed.
        let _outside = self.database.is_autocommit();
        self.packs.sync()
    }

    /// Commits the transaction, once packs were synced. An error leaves it open, or rolls it back.
    fn commit_synced(&mut self) -> Result<usize, Error>
        requires { AreSynced P.Shelf self.old.packs }
        ensures opens { OnOk result (WasOpen S.Store P.Shelf self.old self.new) }
        ensures commits { OnOk result (IsIntact S.Store P.Shelf self.new
            → stands S.Store P.Shelf self.new ≡ committed (stands S.Store P.Shelf self.old)) }
        ensures follows { KeepsDisk (state S.Store P.Shelf self.old) (state S.Store P.Shelf self.new) }
        ensures unwinds { OnErr result (IsClean S.Store P.Shelf self.new
            → Unwinds (stands S.Store P.Shelf self.old) (stands S.Store P.Shelf self.new)) }
        ensures survives { IsIntact S.Store P.Shelf self.new → (stands S.Store P.Shelf self.old).inside ≡ true
            → IsWhole (stands S.Store P.Shelf self.old).now → (db : Trees) → Leaves (state S.Store P.Shelf self.new) db
            → Leaves (state S.Store P.Shelf self.old) db ⊎ (db ≡ (stands S.Store P.Shelf self.old).now.trees) }
        ensures trouble { IfErr result (λ e. IsIntact S.Store P.Shelf self.new
            → (IsClean S.Store P.Shelf self.old → (stands S.Store P.Shelf self.old).inside ≡ true) → is_trouble e ≡ true) }
    {
        match transactions::commit(&mut self.database) {
            Ok(count) => {
                self.packs.keep();
                Ok(count)
            }
            Err(refused) => Err(refused),
        }
    }

    /// Commits the transaction, after what was appended to packs was synced. An error leaves it open, or
    /// rolls it back; that of a pack is told as one of memory or of a file.
    pub fn commit(&mut self) -> Result<usize, Error>
        ensures opens { OnOk result (WasOpen S.Store P.Shelf self.old self.new) }
        ensures commits { OnOk result (IsIntact S.Store P.Shelf self.new
            → stands S.Store P.Shelf self.new ≡ committed (stands S.Store P.Shelf self.old)) }
        ensures follows { KeepsDisk (state S.Store P.Shelf self.old) (state S.Store P.Shelf self.new) }
        ensures unwinds { OnErr result (IsClean S.Store P.Shelf self.new
            → Unwinds (stands S.Store P.Shelf self.old) (stands S.Store P.Shelf self.new)) }
        ensures survives { IsIntact S.Store P.Shelf self.new → (stands S.Store P.Shelf self.old).inside ≡ true
            → IsWhole (stands S.Store P.Shelf self.old).now → (db : Trees) → Leaves (state S.Store P.Shelf self.new) db
            → Leaves (state S.Store P.Shelf self.old) db ⊎ (db ≡ (stands S.Store P.Shelf self.old).now.trees) }
        ensures trouble { IfErr result (λ e. IsIntact S.Store P.Shelf self.new
            → (IsClean S.Store P.Shelf self.old → (stands S.Store P.Shelf self.old).inside ≡ true) → is_trouble e ≡ true) }
        ensures lists { IsOpen S.Store P.Shelf self.old
            → Lists ((stands S.Store P.Shelf self.old).now.trees catalog_tree) (stands S.Store P.Shelf self.old).now.schema }
    {
        // Called for its contract: the current trees list the schema.
        let _schema = self.database.schema();
        match self.sync() {
            Ok(()) => self.commit_synced(),
            Err(trouble) => Err(error_of(trouble)),
        }
    }

    /// Rolls back the transaction, if one is open: the tables are those that were committed.
    pub fn take_back(&mut self)
        ensures back { IsClean S.Store P.Shelf self.new
            → stands S.Store P.Shelf self.new ≡ taken_back (stands S.Store P.Shelf self.old) }
        ensures follows { KeepsDisk (state S.Store P.Shelf self.old) (state S.Store P.Shelf self.new) }
        ensures survives { LeavesNothingNew (state S.Store P.Shelf self.old) (state S.Store P.Shelf self.new) }
    {
        transactions::take_back(&mut self.database);
    }

    /// Removes a pack that no row names, and its file, outside a transaction. After an error the file may be
    /// there still, of which no row says anything: the next opening removes it.
    pub fn remove(&mut self, pack: usize) -> Result<(), Error>
        requires outside { IsClean S.Store P.Shelf self.old → (stands S.Store P.Shelf self.old).inside ≡ false }
        requires unnamed { IsClean S.Store P.Shelf self.old → IsUnnamed S.Store P.Shelf self.old pack }
        ensures within { StaysWithin S.Store P.Shelf self.old self.new }
        ensures same { IsClean S.Store P.Shelf self.new → stands S.Store P.Shelf self.new ≡ stands S.Store P.Shelf self.old }
        ensures rows { self.new.database ≡ self.old.database }
        ensures gone { OnOk result (IsGone P.Shelf self.new.packs pack) }
        ensures others { IsClean S.Store P.Shelf self.new
            → AreSameBut pack (contents S.Store P.Shelf self.new) (contents S.Store P.Shelf self.old) }
        ensures trouble { IfErr result (λ e. is_trouble e ≡ true) }
    {
        // Asked for what it ensures: outside a transaction, what is standing was committed.
        let _outside = self.database.is_autocommit();
        match self.packs.remove(pack) {
            Ok(()) => Ok(()),
            Err(left) => Err(error_of(left)),
        }
    }
}
