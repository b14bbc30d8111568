//! One step of emptying a pack of which little is named.

ghost use Rattle.std.specs.Prelude.{◌≡◌, ◌<◌, ◌≤◌, ◌^◌, IfOk, IfSome, OnErr, OnOk};
ghost use Rattle.bh_base.specs.Calls.{Reads, WritesOn};
ghost use Rattle.bh_base.specs.Connections.{IsClean, CanReadBy, InMidst, Rewrites, state, stands, tables, places, packs};
ghost use Rattle.bh_base.specs.Layer.{KeepsDisk};
ghost use Rattle.bh_base.specs.Places.{KeepsRows};
ghost use Rattle.bh_base.specs.Removal.{IsAtRest, RestsAgain, LeavesTables};
ghost use Rattle.bh_compaction.specs.Moves.{IsSparse, Moves, Compacts};

use crate::moving::move_rows;
use crate::rows::{name_rows, read_pack, sparse_rows};
use bh_base::connection::Connection;
use bh_shelf::shelf::Shelf;
use sqlite::{Alter, Error};

/// Which packs are sparse: those that have at least `length` bytes, of which fewer than `live` are named, but some.
#[derive(Clone, Copy)]
pub struct Sparse {
    pub length: u64,
    pub live: u64,
}

/// How much one step moves: at most so many blocks, and no more once so many bytes were moved.
#[derive(Clone, Copy)]
pub struct Step {
    pub blocks: u64,
    pub bytes: usize,
}

/// The first pack that is sparse. It may be called inside a transaction and outside.
fn sparse_pack<S: Alter, P: Shelf>(
    connection: &mut Connection<S, P>,
    sparse: Sparse,
) -> Result<Option<usize>, Error>
    requires reads { CanReadBy S.Store P.Shelf connection.old }
    requires length { sparse.length < 2 ^ 63 }
    requires live { sparse.live < 2 ^ 63 }
    ensures reads { Reads S.Store P.Shelf connection.old connection.new result }
    ensures found { IfOk result (λ found. IfSome found (λ pack. IsClean S.Store P.Shelf connection.new
        → IsSparse sparse (packs S.Store P.Shelf connection.old) pack)) }
    ensures small { IfOk result (λ found. IfSome found (λ pack. pack < 2 ^ 63)) }
    ensures still { OnOk result (IsClean S.Store P.Shelf connection.new → KeepsRows S.Store P.Shelf connection.old connection.new) }
{
    let rows = sparse_rows(connection, sparse)?;
    match rows.first() {
        None => Ok(None),
        Some(row) => Ok(Some(read_pack(row)?)),
    }
}

/// Gives some blocks in a pack other places, as one step of a write. Returns how many, or `None` if packs have no
/// room.
fn move_in<S: Alter, P: Shelf>(
    connection: &mut Connection<S, P>,
    pack: usize,
    step: Step,
) -> Result<Option<usize>, Error>
    requires midst { InMidst S.Store P.Shelf connection.old }
    requires pack { pack < 2 ^ 63 }
    requires blocks { step.blocks < 2 ^ 63 }
    ensures writes { WritesOn S.Store P.Shelf connection.old connection.new result }
    ensures rewrites { IfOk result (λ found. IfSome found (λ count.
        Rewrites S.Store P.Shelf connection.old connection.new (λ sums. sums) (λ rows. rows))) }
    ensures moved { IfOk result (λ found. IfSome found (λ count. IsClean S.Store P.Shelf connection.new
        → Moves pack count (places S.Store P.Shelf connection.old) (places S.Store P.Shelf connection.new))) }
    ensures few { IfOk result (λ found. IfSome found (λ count. IsClean S.Store P.Shelf connection.new → count ≤ step.blocks)) }
{
    let rows = name_rows(connection, pack as u64, step.blocks)?;
    move_rows(connection, &rows, pack, step.bytes)
}

/// Gives some blocks in a sparse pack other places, as one step of a write. Returns how many, or `None` if packs
/// have no room: the write is to be taken back then.
fn move_some<S: Alter, P: Shelf>(
    connection: &mut Connection<S, P>,
    sparse: Sparse,
    step: Step,
) -> Result<Option<usize>, Error>
    requires midst { InMidst S.Store P.Shelf connection.old }
    requires length { sparse.length < 2 ^ 63 }
    requires live { sparse.live < 2 ^ 63 }
    requires blocks { step.blocks < 2 ^ 63 }
    ensures writes { WritesOn S.Store P.Shelf connection.old connection.new result }
    ensures rewrites { IfOk result (λ found. IfSome found (λ count.
        Rewrites S.Store P.Shelf connection.old connection.new (λ sums. sums) (λ rows. rows))) }
    ensures moved { IfOk result (λ found. IfSome found (λ count. IsClean S.Store P.Shelf connection.new
        → Compacts sparse count (packs S.Store P.Shelf connection.old)
        (places S.Store P.Shelf connection.old) (places S.Store P.Shelf connection.new))) }
    ensures few { IfOk result (λ found. IfSome found (λ count. IsClean S.Store P.Shelf connection.new → count ≤ step.blocks)) }
{
    match sparse_pack(connection, sparse)? {
        None => Ok(Some(0)),
        Some(pack) => move_in(connection, pack, step),
    }
}

/// Does so in a transaction, and commits it, or takes it back if packs have no room. After an error the
/// transaction may be open.
fn commit_moved<S: Alter, P: Shelf>(
    connection: &mut Connection<S, P>,
    sparse: Sparse,
    step: Step,
) -> Result<usize, Error>
    requires rest { IsClean S.Store P.Shelf connection.old → IsAtRest (stands S.Store P.Shelf connection.old) }
    requires length { sparse.length < 2 ^ 63 }
    requires live { sparse.live < 2 ^ 63 }
    requires blocks { step.blocks < 2 ^ 63 }
    ensures follows { KeepsDisk (state S.Store P.Shelf connection.old) (state S.Store P.Shelf connection.new) }
    ensures rests { OnOk result (IsClean S.Store P.Shelf connection.new
        → RestsAgain (stands S.Store P.Shelf connection.old) (stands S.Store P.Shelf connection.new)) }
    ensures kept { OnErr result (IsClean S.Store P.Shelf connection.new
        → (stands S.Store P.Shelf connection.new).kept ≡ (stands S.Store P.Shelf connection.old).kept) }
    ensures left { LeavesTables (tables S.Store P.Shelf connection.old)
        (state S.Store P.Shelf connection.old) (state S.Store P.Shelf connection.new) }
    ensures moved { IfOk result (λ count. IsClean S.Store P.Shelf connection.new
        → Compacts sparse count (packs S.Store P.Shelf connection.old)
        (places S.Store P.Shelf connection.old) (places S.Store P.Shelf connection.new)) }
    ensures few { IfOk result (λ count. IsClean S.Store P.Shelf connection.new → count ≤ step.blocks) }
{
    connection.begin()?;
    match move_some(connection, sparse, step)? {
        None => {
            connection.take_back();
            Ok(0)
        }
        Some(count) => {
            connection.commit()?;
            Ok(count)
        }
    }
}

/// Gives some blocks in the first sparse pack other places, in a transaction of its own, outside any other. Returns
/// how many: 0 if no pack is sparse, or if packs have no room. The old places are gaps from then on. Each block has
/// the bytes that it had, also after an error, and after a crash at any moment.
pub fn compact<S: Alter, P: Shelf>(
    connection: &mut Connection<S, P>,
    sparse: Sparse,
    step: Step,
) -> Result<usize, Error>
    requires rest { IsClean S.Store P.Shelf connection.old → IsAtRest (stands S.Store P.Shelf connection.old) }
    requires length { sparse.length < 2 ^ 63 }
    requires live { sparse.live < 2 ^ 63 }
    requires blocks { step.blocks < 2 ^ 63 }
    ensures follows { KeepsDisk (state S.Store P.Shelf connection.old) (state S.Store P.Shelf connection.new) }
    ensures rests { IsClean S.Store P.Shelf connection.new
        → RestsAgain (stands S.Store P.Shelf connection.old) (stands S.Store P.Shelf connection.new) }
    ensures left { LeavesTables (tables S.Store P.Shelf connection.old)
        (state S.Store P.Shelf connection.old) (state S.Store P.Shelf connection.new) }
    ensures moved { IfOk result (λ count. IsClean S.Store P.Shelf connection.new
        → Compacts sparse count (packs S.Store P.Shelf connection.old)
        (places S.Store P.Shelf connection.old) (places S.Store P.Shelf connection.new)) }
    ensures stays { OnErr result (IsClean S.Store P.Shelf connection.new
        → places S.Store P.Shelf connection.new ≡ places S.Store P.Shelf connection.old) }
    ensures few { IfOk result (λ count. IsClean S.Store P.Shelf connection.new → count ≤ step.blocks) }
{
    match commit_moved(connection, sparse, step) {
        Ok(count) => Ok(count),
        Err(error) => {
            connection.take_back();
            Err(error)
        }
    }
}
