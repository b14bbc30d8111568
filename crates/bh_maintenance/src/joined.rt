//! An opened host with packs.

ghost use Rattle.std.specs.Prelude.{◌≡◌};
ghost use Rattle.bh_maintenance.specs.Joined.{joined};

use bh_base::connection::Connection;
use bh_open::Opened;
use bh_shelf::shelf::Shelf;
use bh_types::block_digest::BlockDigest;
use bh_types::limits::{Limits, Tuning};
use sqlite::Alter;

/// A host that was opened, whose database is joined with its packs.
#[derive(Drop)]
pub struct Joined<S: Alter + Drop, P: Shelf + Drop> {
    /// The database and the packs.
    pub connection: Connection<S, P>,
    /// The limits that the host was created with.
    pub limits: Limits,
    /// The settings of this process.
    pub tuning: Tuning,
    /// The function that names its blocks.
    pub digest: BlockDigest,
    /// Its last stamp, in seconds since 1970; 0 if there is none.
    pub latest: u64,
}

impl<S: Alter + Drop, P: Shelf + Drop> Joined<S, P> {
    /// The host, with packs.
    pub(crate) fn of(host: Opened<S>, packs: P) -> Joined<S, P>
        ensures { result ≡ joined host packs }
    {
        let Opened {
            connection,
            limits,
            tuning,
            digest,
            latest,
            listed: _,
        } = host;
        Joined {
            connection: Connection {
                database: connection,
                packs,
            },
            limits,
            tuning,
            digest,
            latest,
        }
    }
}
