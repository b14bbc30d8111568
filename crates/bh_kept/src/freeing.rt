//! Packs of which no byte is named any more, removed between two events, and one of which little is named,
//! emptied by a step. What is remembered and cached stays: no table shows packs.

ghost use Rattle.bh_base.specs.Connections.{IsClean, state, stands, tables};
ghost use Rattle.bh_base.specs.Layer.{KeepsDisk};
ghost use Rattle.bh_base.specs.Removal.{IsAtRest, RestsAgain, LeavesTables};
ghost use Rattle.bh_kept.specs.Freeing.{IsOutside, ShowsNothingNew};

use bh_base::connection::Connection;
use bh_base::removal::drop_packs;
use bh_compaction::compaction::{Sparse, Step, compact};
use bh_shelf::shelf::Shelf;
use sqlite::{Alter, Error};

/// A pack is emptied once it is three quarters of 64 MiB long, and less than half of 64 MiB is named: so full packs
/// have at most twice the bytes that are named.
const SPARSE: Sparse = Sparse {
    length: 50_331_648,
    live: 33_554_432,
};

/// A sweep step removes no more blocks than this, of 64 KiB each as a rule: so packs are emptied as fast as they
/// become sparse.
const STEP: Step = Step {
    blocks: 256,
    bytes: 16_777_216,
};

/// Does a step of both, and returns how many blocks got other places and how many packs were removed, in one
/// number. `None` if memory or the store failed: the cause is on standard error, unless that can't be written.
pub(crate) fn drop_idle<S: Alter, P: Shelf>(
    errors: &impl Eprint,
    connection: &mut Connection<S, P>,
) -> Option<u64>
    requires { IsClean S.Store P.Shelf connection.old → IsOutside (stands S.Store P.Shelf connection.old) }
    ensures follows { KeepsDisk (state S.Store P.Shelf connection.old) (state S.Store P.Shelf connection.new) }
    ensures rests { IsClean S.Store P.Shelf connection.new
        → RestsAgain (stands S.Store P.Shelf connection.old) (stands S.Store P.Shelf connection.new) }
    ensures left { ShowsNothingNew (state S.Store P.Shelf connection.old) (state S.Store P.Shelf connection.new) }
{
    match drop_all(errors, connection) {
        Ok(count) => Some(count as u64),
        Err(error) => {
            let _ = eprintln!(errors;
                "bucketd: unable to remove packs of which nothing is named: {error}"
            );
            None
        }
    }
}

/// Empties a pack by one step, and then removes packs as [`drop_packs`] does.
fn drop_all<S: Alter, P: Shelf>(
    errors: &impl Eprint,
    connection: &mut Connection<S, P>,
) -> Result<usize, Error>
    requires { IsClean S.Store P.Shelf connection.old → IsOutside (stands S.Store P.Shelf connection.old) }
    ensures follows { KeepsDisk (state S.Store P.Shelf connection.old) (state S.Store P.Shelf connection.new) }
    ensures rests { IsClean S.Store P.Shelf connection.new
        → RestsAgain (stands S.Store P.Shelf connection.old) (stands S.Store P.Shelf connection.new) }
    ensures left { ShowsNothingNew (state S.Store P.Shelf connection.old) (state S.Store P.Shelf connection.new) }
{
    // Asked for what they ensure: the trees list the schema, and outside a transaction what stands was committed.
    let _schema = connection.database.schema();
    let _outside = connection.database.is_autocommit();
    let moved = empty_some(errors, connection);
    let gone = drop_packs(connection)?;
    Ok(moved.saturating_add(gone))
}

/// Empties a pack of which little is named by one step, and returns how many blocks got other places. If that
/// fails, the cause is on standard error, unless that can't be written: packs of which nothing is named can be
/// removed all the same.
fn empty_some<S: Alter, P: Shelf>(errors: &impl Eprint, connection: &mut Connection<S, P>) -> usize
    requires { IsClean S.Store P.Shelf connection.old → IsAtRest (stands S.Store P.Shelf connection.old) }
    ensures follows { KeepsDisk (state S.Store P.Shelf connection.old) (state S.Store P.Shelf connection.new) }
    ensures rests { IsClean S.Store P.Shelf connection.new
        → RestsAgain (stands S.Store P.Shelf connection.old) (stands S.Store P.Shelf connection.new) }
    ensures left { LeavesTables (tables S.Store P.Shelf connection.old)
        (state S.Store P.Shelf connection.old) (state S.Store P.Shelf connection.new) }
{
    match compact(connection, SPARSE, STEP) {
        Ok(count) => count,
        Err(error) => {
            let _ = eprintln!(errors;
                "bucketd: unable to empty a pack of which little is named: {error}"
            );
            0
        }
    }
}
