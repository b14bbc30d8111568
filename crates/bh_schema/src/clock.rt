ghost use Rattle.std.specs.Prelude.{◌≡◌, ◌≤◌, IfOk, OnOk};
ghost use Rattle.bh_base.specs.Connections.{state};
ghost use Rattle.bh_model.specs.Runs.{last_reading};
ghost use Rattle.bh_view.specs.View.{latest_of};
ghost use Rattle.bh_storage.specs.Calls.{Stamps};
ghost use Rattle.bh_base.specs.Layer.{standing};
ghost use Rattle.bh_schema.specs.Calls.{Reads};
ghost use Rattle.bh_schema.specs.Storage.{IsClean, seen, Works, Keeps, StaysOpen, KeepsSettings};

use crate::host::{Digester, Host};
use crate::rows::host::{find_latest, set_latest};
use crate::trouble::or_trouble;
use bh_shelf::shelf::Shelf;
use bh_storage::error::Trouble;
use bh_types::moment::Moment;
use sqlite::Alter;

impl<S: Alter + Drop, P: Shelf + Drop, D: Digester + Drop> Host<S, P, D> {
    /// The last stamp.
    pub fn latest(&mut self) -> Result<Moment, Trouble>
        requires { Works S.Store P.Shelf D.digest_of self.old }
        ensures reads { Reads S.Store P.Shelf self.old.connection self.new.connection result }
        ensures latest { IfOk result (λ m. IsClean S.Store P.Shelf self.new → m ≡ latest_of (seen S.Store P.Shelf self.old).now) }
        ensures settings { self.new ≡ record self.old { connection = self.new.connection } }
    {
        let found = or_trouble(find_latest(&mut self.connection))?;
        match Moment::from_reading(found.unwrap_or(0)) {
            Some(latest) => Ok(latest),
            None => Err(Trouble::Store),
        }
    }

    /// Writes the stamp of a reading of the clock, in seconds since 1970, unless it is the last
    /// stamp already. The stamp is the greater of the two.
    pub fn stamp_reading(&mut self, reading: u64) -> Result<Moment, Trouble>
        requires in_range { reading ≤ last_reading }
        requires working { Works S.Store P.Shelf D.digest_of self.old }
        ensures within { Keeps S.Store P.Shelf self.old self.new }
        ensures opens { OnOk result (StaysOpen S.Store P.Shelf self.old self.new) }
        ensures working { OnOk result (Works S.Store P.Shelf D.digest_of self.new) }
        ensures stamps { IfOk result (λ m. IsClean S.Store P.Shelf self.new
            → Stamps reading m (seen S.Store P.Shelf self.old).now (seen S.Store P.Shelf self.new).now) }
        ensures unwritten { IfOk result (λ m. IsClean S.Store P.Shelf self.new → m ≡ latest_of (seen S.Store P.Shelf self.old).now
            → standing (state S.Store P.Shelf self.new.connection) ≡ standing (state S.Store P.Shelf self.old.connection)) }
        ensures settings { KeepsSettings S.Store P.Shelf self.old self.new }
    {
        let latest = self.latest()?;
        if reading <= latest.seconds() {
            return Ok(latest);
        }
        or_trouble(set_latest(&mut self.connection, reading))?;
        match Moment::from_reading(reading) {
            Some(read) => Ok(read),
            None => Err(Trouble::Store),
        }
    }
}
