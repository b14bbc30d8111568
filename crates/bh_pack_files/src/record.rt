//! A record of calls of the system and their answers, which only clauses read. It takes no memory.

ghost use Rattle.std.specs.Prelude.{◌≡◌, ◌∷◌, [], ℕ, List};
ghost use Rattle.std.specs.Borrow.{ftrue};
ghost use Rattle.sqlite_disk.specs.Events.{Event, settled};
ghost use Rattle.bh_pack_files.specs.Note.{brought, event_of};

use std::marker::{Model, PhantomData};

/// The calls so far, the newest first.
#[derive(Drop)]
pub struct Record {
    marker: PhantomData<u8>,
    pub ghost events: { List Event },
}

impl Model for Record {
    ghost also_owns = { λ _. ftrue };
}

impl Record {
    /// The file was synced, and nothing was asked since.
    pub(crate) fn new() -> Record
        ensures { result.events ≡ settled 0 ∷ [] }
    {
        Record {
            marker: PhantomData,
        }
    }

    /// One more call.
    pub(crate) fn note(&mut self, _numbers: &[u64], _bytes: &[u8])
        ensures { self.new.events ≡ event_of _numbers.now _bytes.now ∷ self.old.events }
    {}

    /// The file has these bytes, as if they had been written to its beginning and synced.
    pub(crate) fn bring(&mut self)
        ghost bytes: { List ℕ }
        ensures { self.new.events ≡ brought bytes self.old.events }
    {}
}
