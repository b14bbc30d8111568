//! Moves a tenant in one transaction.

ghost use Rattle.std.specs.Prelude.{◌≡◌, ◌≢◌, ◌≤◌, true, false, Ok, Some, None, is_some, IfOk};
ghost use Rattle.bh_base.specs.Connections.{state};
ghost use Rattle.bh_types.specs.declared.refusal.Refusal.TheVariants.{NoSuchTenant, TenantExists};
ghost use Rattle.bh_tables.specs.Typed.{IsHost};
ghost use Rattle.bh_view.specs.View.{view};
ghost use Rattle.bh_base.specs.Connections.{IsClean, stands, tables};
ghost use Rattle.bh_base.specs.Layer.{taken_back, KeepsDisk};
ghost use Rattle.bh_tenant_rows.specs.Brought.{IsMoved};
ghost use Rattle.bh_moved.specs.Moves.{IsReady, IsCommitted, Tells, move_refused};

use crate::tenant::bring_tenant;
use bh_base::connection::Connection;
use bh_schema::host::Digester;
use bh_shelf::shelf::Shelf;
use bh_types::refusal::Refusal;
use sqlite::{Alter, Error};
use std::alloc::Global;

/// Adds a tenant to the second host, and commits it.
fn bring_and_commit<S: Alter, P: Shelf, T: Alter, Q: Shelf, D: Digester>(
    from: &mut Connection<S, P>,
    to: &mut Connection<T, Q>,
    alloc: Global,
    digester: &D,
    block_size: u64,
    tenant: &str,
) -> Result<Option<Refusal>, Error>
    requires reading { IsReady S.Store P.Shelf from.old }
    requires ready { IsReady T.Store Q.Shelf to.old }
    requires positive { 1 ≤ block_size }
    ensures from_follows { KeepsDisk (state S.Store P.Shelf from.old) (state S.Store P.Shelf from.new) }
    ensures from_kept { IsClean S.Store P.Shelf from.new → (stands S.Store P.Shelf from.new).kept ≡ (stands S.Store P.Shelf from.old).kept }
    ensures follows { KeepsDisk (state T.Store Q.Shelf to.old) (state T.Store Q.Shelf to.new) }
    ensures kept { result ≢ Ok None → IsClean T.Store Q.Shelf to.new
        → (stands T.Store Q.Shelf to.new).kept ≡ (stands T.Store Q.Shelf to.old).kept }
    ensures committed { result ≡ Ok None → IsClean T.Store Q.Shelf to.new → IsCommitted (stands T.Store Q.Shelf to.new) }
    ensures host { result ≡ Ok None → IsClean T.Store Q.Shelf to.new → IsHost (stands T.Store Q.Shelf to.new).now }
    ensures tells { Tells S.Store P.Shelf T.Store Q.Shelf D.digest_of tenant.now from.old from.new to.old to.new result }
{
    from.begin()?;
    to.begin()?;
    let refused = bring_tenant(from, to, alloc, digester, block_size, tenant)?;
    if refused.is_none() {
        to.commit()?;
    }
    Ok(refused)
}

/// Copies a tenant from one host to another, in one commit, in blocks of at most `block_size`
/// bytes. Other tenants of the second host don't change, and neither does the first host.
///
/// Refuses with `NoSuchTenant` if the first host doesn't have the tenant, and with `TenantExists`
/// if the second has it. Then, and after an error, nothing of it was added.
pub fn move_tenant<S: Alter, P: Shelf, T: Alter, Q: Shelf, D: Digester>(
    from: &mut Connection<S, P>,
    to: &mut Connection<T, Q>,
    alloc: Global,
    digester: &D,
    block_size: u64,
    tenant: &str,
) -> Result<Option<Refusal>, Error>
    requires reading { IsReady S.Store P.Shelf from.old }
    requires ready { IsReady T.Store Q.Shelf to.old }
    requires positive { 1 ≤ block_size }
    ensures from_follows { KeepsDisk (state S.Store P.Shelf from.old) (state S.Store P.Shelf from.new) }
    ensures from_back { IsClean S.Store P.Shelf from.new → stands S.Store P.Shelf from.new ≡ taken_back (stands S.Store P.Shelf from.old) }
    ensures follows { KeepsDisk (state T.Store Q.Shelf to.old) (state T.Store Q.Shelf to.new) }
    ensures back { result ≢ Ok None → IsClean T.Store Q.Shelf to.new
        → stands T.Store Q.Shelf to.new ≡ taken_back (stands T.Store Q.Shelf to.old) }
    ensures committed { result ≡ Ok None → IsClean T.Store Q.Shelf to.new → IsCommitted (stands T.Store Q.Shelf to.new) }
    ensures host { result ≡ Ok None → IsClean T.Store Q.Shelf to.new → IsHost (stands T.Store Q.Shelf to.new).now }
    ensures moved { IfOk result (λ refused. refused ≡ None → IsClean S.Store P.Shelf from.new → IsClean T.Store Q.Shelf to.new
        → IsMoved D.digest_of tenant.now (tables S.Store P.Shelf from.old) (tables T.Store Q.Shelf to.old)
        (tables T.Store Q.Shelf to.new)) }
    ensures answered { IfOk result (λ refused. IsClean S.Store P.Shelf from.new → IsClean T.Store Q.Shelf to.new
        → refused ≡ move_refused (view (tables S.Store P.Shelf from.old) tenant.now) (view (tables T.Store Q.Shelf to.old) tenant.now)) }
    ensures missing { IfOk result (λ refused. refused ≡ Some NoSuchTenant → IsClean S.Store P.Shelf from.new
        → is_some (view (tables S.Store P.Shelf from.old) tenant.now) ≡ false) }
    ensures exists { IfOk result (λ refused. refused ≡ Some TenantExists → IsClean T.Store Q.Shelf to.new
        → is_some (view (tables T.Store Q.Shelf to.old) tenant.now) ≡ true) }
{
    let outcome = bring_and_commit(from, to, alloc, digester, block_size, tenant);
    from.take_back();
    if !matches!(outcome, Ok(None)) {
        to.take_back();
    }
    outcome
}
