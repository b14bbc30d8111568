//! A tenant with all its contents.

ghost use Rattle.std.specs.Prelude.{◌≡◌, ◌≤◌, true, false, Some, None, find, is_some, IfOk, OnOk};
ghost use Rattle.bh_types.specs.declared.refusal.Refusal.TheVariants.{NoSuchTenant, TenantExists};
ghost use Rattle.bh_tables.specs.Shown.{is_tenant};
ghost use Rattle.bh_view.specs.View.{view};
ghost use Rattle.bh_base.specs.Connections.{IsClean, tables, InTransaction, StaysWithin};
ghost use Rattle.bh_tenant_rows.specs.Brought.{IsMoved};
ghost use Rattle.bh_schema.specs.Calls.{Reads, Writes};
ghost use Rattle.bh_moved.specs.Moves.{move_refused};
ghost use Rattle.bh_moved.specs.Rows.{tenant_row};

use crate::cells::in_range;
use crate::moving::Moving;
use crate::rows::bring_rows;
use crate::stamps::stamp_later;
use bh_base::connection::Connection;
use bh_schema::host::Digester;
use bh_schema::rows::tenants::find_tenant;
use bh_shelf::shelf::Shelf;
use bh_types::refusal::Refusal;
use sqlite::{Alter, Error};
use std::alloc::Global;

/// Adds a tenant that doesn't exist, with all its contents in another host, and takes over that
/// host's last stamp if it is later.
fn bring_all<S: Alter, P: Shelf, T: Alter, Q: Shelf, D: Digester>(
    from: &mut Connection<S, P>,
    to: &mut Connection<T, Q>,
    moving: &Moving<'_, D>,
) -> Result<(), Error>
    requires reading { InTransaction S.Store P.Shelf from.old }
    requires inside { InTransaction T.Store Q.Shelf to.old }
    ensures reads { Reads S.Store P.Shelf from.old from.new result }
    ensures writes { Writes T.Store Q.Shelf to.old to.new result }
    ensures brought { let t = moving.now.tenant.now in OnOk result (IsClean S.Store P.Shelf from.new → IsClean T.Store Q.Shelf to.new
        → find (is_tenant t) (tables S.Store P.Shelf from.old).tenants ≡ Some (tenant_row t moving.now.numbers)
        → find (is_tenant t) (tables T.Store Q.Shelf to.old).tenants ≡ None
        → IsMoved D.digest_of t (tables S.Store P.Shelf from.old) (tables T.Store Q.Shelf to.old) (tables T.Store Q.Shelf to.new)) }
{
    bring_rows(from, to, moving)?;
    stamp_later(from, to)?;
    Ok(())
}

/// Adds a tenant with all its contents in another host: its quota, counters, keys, buckets,
/// versions, markers, dates, uploads and parts. Their bytes are stored in blocks of at most
/// `block_size` bytes. The host's last stamp becomes the later of the two.
///
/// Refuses with `NoSuchTenant` if the other host doesn't have the tenant, and with `TenantExists`
/// if this one has it. Then nothing is added.
pub fn bring_tenant<S: Alter, P: Shelf, T: Alter, Q: Shelf, D: Digester>(
    from: &mut Connection<S, P>,
    to: &mut Connection<T, Q>,
    alloc: Global,
    digester: &D,
    block_size: u64,
    tenant: &str,
) -> Result<Option<Refusal>, Error>
    requires reading { InTransaction S.Store P.Shelf from.old }
    requires inside { InTransaction T.Store Q.Shelf to.old }
    requires positive { 1 ≤ block_size }
    ensures reads { StaysWithin S.Store P.Shelf from.old from.new }
    ensures within { StaysWithin T.Store Q.Shelf to.old to.new }
    ensures inside { OnOk result (InTransaction T.Store Q.Shelf to.new) }
    ensures moved { IfOk result (λ refused. refused ≡ None → IsClean S.Store P.Shelf from.new → IsClean T.Store Q.Shelf to.new
        → IsMoved D.digest_of tenant.now (tables S.Store P.Shelf from.old) (tables T.Store Q.Shelf to.old)
        (tables T.Store Q.Shelf to.new)) }
    ensures answered { IfOk result (λ refused. IsClean S.Store P.Shelf from.new → IsClean T.Store Q.Shelf to.new
        → refused ≡ move_refused (view (tables S.Store P.Shelf from.old) tenant.now) (view (tables T.Store Q.Shelf to.old) tenant.now)) }
    ensures missing { IfOk result (λ refused. refused ≡ Some NoSuchTenant → IsClean S.Store P.Shelf from.new
        → is_some (view (tables S.Store P.Shelf from.old) tenant.now) ≡ false) }
    ensures exists { IfOk result (λ refused. refused ≡ Some TenantExists → IsClean T.Store Q.Shelf to.new
        → is_some (view (tables T.Store Q.Shelf to.old) tenant.now) ≡ true) }
{
    let Some(numbers) = find_tenant(from, tenant)? else {
        return Ok(Some(Refusal::NoSuchTenant));
    };
    if find_tenant(to, tenant)?.is_some() {
        return Ok(Some(Refusal::TenantExists));
    }
    // No column has a larger one.
    in_range(numbers.next_entry)?;
    let moving = Moving {
        alloc,
        digester,
        block_size,
        tenant,
        numbers,
    };
    bring_all(from, to, &moving)?;
    Ok(None)
}
