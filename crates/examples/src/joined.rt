//! A connection to a host that has no packs.

use bh_base::connection::Connection;
use bh_shelf::no_shelf::NoShelf;
use sqlite::{Alter, Connection as Database};

/// A connection to a host whose bytes are all in its database.
pub fn without_packs<S: Alter + Drop>(database: Database<S>) -> Connection<S, NoShelf> {
    Connection {
        database,
        packs: NoShelf,
    }
}
