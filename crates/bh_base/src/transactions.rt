//! BEGIN, COMMIT and ROLLBACK in a database.

ghost use Rattle.std.specs.Prelude.{◌≡◌, ◌⊎◌, true, false, IfErr, OnOk, OnErr};
ghost use Rattle.sqlite.specs.Effect.{IsDatabase};
ghost use Rattle.sqlite.specs.Tree.{Trees};
ghost use Rattle.sqlite.specs.Held.{state};
ghost use Rattle.bh_rows.specs.Means.{is_trouble};
ghost use Rattle.bh_base.specs.Databases.{IsIntact, IsOpen, IsClean, stands, StaysWithin, WasOpen};
ghost use Rattle.bh_base.specs.Layer.{Leaves, begun, committed, taken_back, KeepsDisk, LeavesNothingNew, Unwinds};

use sqlite::{Alter, Connection, Error};

/// Begins a transaction.
pub fn begin<S: Alter>(connection: &mut Connection<S>) -> Result<usize, Error>
    ensures outside { OnOk result (IsIntact S.Store connection.new → (stands S.Store connection.old).inside ≡ false) }
    ensures opens { OnOk result (WasOpen S.Store connection.old connection.new) }
    ensures begins { OnOk result (IsIntact S.Store connection.new → stands S.Store connection.new ≡ begun (stands S.Store connection.old)) }
    ensures within { StaysWithin S.Store connection.old connection.new }
    ensures survives { LeavesNothingNew (state S.Store connection.old) (state S.Store connection.new) }
    ensures trouble { IfErr result (λ e. IsIntact S.Store connection.new
        → (IsClean S.Store connection.old → (stands S.Store connection.old).inside ≡ false) → is_trouble e ≡ true) }
{
    // Asked for what it ensures: outside a transaction, what is standing was committed.
    let _outside = connection.is_autocommit();
    connection.execute("BEGIN", &[])
}

/// Commits the transaction. An error leaves it open, or rolls it back.
pub fn commit<S: Alter>(connection: &mut Connection<S>) -> Result<usize, Error>
    ensures inside { OnOk result (IsIntact S.Store connection.new → (stands S.Store connection.old).inside ≡ true) }
    ensures opens { OnOk result (WasOpen S.Store connection.old connection.new) }
    ensures commits { OnOk result (IsIntact S.Store connection.new
        → stands S.Store connection.new ≡ committed (stands S.Store connection.old)) }
    ensures follows { KeepsDisk (state S.Store connection.old) (state S.Store connection.new) }
    ensures unwinds { OnErr result (IsClean S.Store connection.new
        → Unwinds (stands S.Store connection.old) (stands S.Store connection.new)) }
    ensures survives { IsIntact S.Store connection.new → (stands S.Store connection.old).inside ≡ true
        → (db : Trees) → Leaves (state S.Store connection.new) db
        → Leaves (state S.Store connection.old) db ⊎ (db ≡ (stands S.Store connection.old).now.trees) }
    ensures trouble { IfErr result (λ e. IsIntact S.Store connection.new
        → (IsClean S.Store connection.old → (stands S.Store connection.old).inside ≡ true) → is_trouble e ≡ true) }
    ensures live { IsOpen S.Store connection.old → IsDatabase (stands S.Store connection.old).now }
{
    // Called for its contract: the current tables are a database, whose trees list its schema.
    let _schema = connection.schema();
    connection.execute("COMMIT", &[])
}

/// Rolls back the transaction, if one is open: the tables are those that were committed.
pub fn take_back<S: Alter>(connection: &mut Connection<S>)
    ensures back { IsClean S.Store connection.new → stands S.Store connection.new ≡ taken_back (stands S.Store connection.old) }
    ensures follows { KeepsDisk (state S.Store connection.old) (state S.Store connection.new) }
    ensures survives { LeavesNothingNew (state S.Store connection.old) (state S.Store connection.new) }
{
    // Asked for what it ensures: outside a transaction, what is standing was committed.
    let _outside = connection.is_autocommit();
    // A failure rolls back too, and outside a transaction there is nothing to roll back.
    let _ = connection.execute("ROLLBACK", &[]);
}
