//! All rows of a tenant.

ghost use Rattle.std.specs.Prelude.{◌≡◌, ◌∷◌, [], false, OnOk};
ghost use Rattle.std.specs.List.{list_any};
ghost use Rattle.bh_tables.specs.Shown.{is_tenant};
ghost use Rattle.bh_view.specs.Bodies.{HasBodies};
ghost use Rattle.bh_view.specs.View.{rows_of};
ghost use Rattle.bh_base.specs.Connections.{IsClean, tables, InTransaction, Becomes};
ghost use Rattle.bh_tenant_rows.specs.Brought.{with_names, with_contents, with_rows, IsNext};
ghost use Rattle.bh_schema.specs.Calls.{Reads, Writes};
ghost use Rattle.bh_moved.specs.Rows.{tenant_row};

use crate::account::bring_account;
use crate::moving::Moving;
use crate::tables::bring_table;
use bh_base::connection::Connection;
use bh_schema::host::Digester;
use bh_shelf::shelf::Shelf;
use bh_tenant_rows::reads::Owned;
use sqlite::{Alter, Error};

/// Adds a tenant with its numbers, and with its keys, buckets and locks in another host.
fn bring_names<S: Alter, P: Shelf, T: Alter, Q: Shelf, D: Digester>(
    from: &mut Connection<S, P>,
    to: &mut Connection<T, Q>,
    moving: &Moving<'_, D>,
) -> Result<(), Error>
    requires reading { InTransaction S.Store P.Shelf from.old }
    requires inside { InTransaction T.Store Q.Shelf to.old }
    ensures reads { Reads S.Store P.Shelf from.old from.new result }
    ensures writes { Writes T.Store Q.Shelf to.old to.new result }
    ensures brought { let t = moving.now.tenant.now in OnOk result (IsClean S.Store P.Shelf from.new
        → list_any (is_tenant t) (tables T.Store Q.Shelf to.old).tenants ≡ false
        → Becomes T.Store Q.Shelf to.old to.new
        (with_names (tenant_row t moving.now.numbers ∷ []) (rows_of t (tables S.Store P.Shelf from.old)))) }
{
    bring_account(to, moving.tenant, moving.numbers)?;
    bring_table(Owned::Keys, from, to, moving)?;
    bring_table(Owned::Buckets, from, to, moving)?;
    bring_table(Owned::Locks, from, to, moving)?;
    Ok(())
}

/// Adds the versions, uploads, parts and dates that a tenant has in another host, with their
/// bodies, under the next entry number that it has already.
fn bring_contents<S: Alter, P: Shelf, T: Alter, Q: Shelf, D: Digester>(
    from: &mut Connection<S, P>,
    to: &mut Connection<T, Q>,
    moving: &Moving<'_, D>,
) -> Result<(), Error>
    requires reading { InTransaction S.Store P.Shelf from.old }
    requires inside { InTransaction T.Store Q.Shelf to.old }
    ensures reads { Reads S.Store P.Shelf from.old from.new result }
    ensures writes { Writes T.Store Q.Shelf to.old to.new result }
    ensures brought { OnOk result (IsClean S.Store P.Shelf from.new → HasBodies (tables S.Store P.Shelf from.old)
        → IsNext moving.now.tenant.now moving.now.numbers.next_entry (tables T.Store Q.Shelf to.old) → Becomes T.Store Q.Shelf to.old to.new
        (with_contents D.digest_of moving.now.block_size (rows_of moving.now.tenant.now (tables S.Store P.Shelf from.old)))) }
{
    bring_table(Owned::Versions, from, to, moving)?;
    bring_table(Owned::Uploads, from, to, moving)?;
    bring_table(Owned::Parts, from, to, moving)?;
    bring_table(Owned::Retains, from, to, moving)?;
    Ok(())
}

/// Adds a tenant that doesn't exist, with all rows and bodies that it has in another host.
pub fn bring_rows<S: Alter, P: Shelf, T: Alter, Q: Shelf, D: Digester>(
    from: &mut Connection<S, P>,
    to: &mut Connection<T, Q>,
    moving: &Moving<'_, D>,
) -> Result<(), Error>
    requires reading { InTransaction S.Store P.Shelf from.old }
    requires inside { InTransaction T.Store Q.Shelf to.old }
    ensures reads { Reads S.Store P.Shelf from.old from.new result }
    ensures writes { Writes T.Store Q.Shelf to.old to.new result }
    ensures brought { let t = moving.now.tenant.now in OnOk result (IsClean S.Store P.Shelf from.new
        → HasBodies (tables S.Store P.Shelf from.old)
        → list_any (is_tenant t) (tables T.Store Q.Shelf to.old).tenants ≡ false
        → (rows_of t (tables S.Store P.Shelf from.old)).tenants ≡ tenant_row t moving.now.numbers ∷ []
        → Becomes T.Store Q.Shelf to.old to.new (with_rows D.digest_of moving.now.block_size (rows_of t
        (tables S.Store P.Shelf from.old)))) }
{
    bring_names(from, to, moving)?;
    bring_contents(from, to, moving)?;
    Ok(())
}
