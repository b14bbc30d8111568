ghost use Rattle.std.specs.Prelude.{◌≡◌, IfOk, IfErr, Some, find};
ghost use Rattle.std.specs.Str.{IsUtf8};
ghost use Rattle.bh_tables.specs.Typed.{KeyRow as Stored};
ghost use Rattle.bh_tables.specs.Shown.{is_key};
ghost use Rattle.bh_schema.specs.Calls.{Reads};
ghost use Rattle.bh_base.specs.Connections.{IsClean, tables, InTransaction, IsTroubleIf};
ghost use Rattle.bh_schema.specs.Known.{key_known};

use crate::rows::keys::find_secret;
use crate::rows::tenants::find_tenant;
use bh_base::connection::Connection;
use bh_shelf::shelf::Shelf;
use sqlite::{Alter, Error};

/// What the tables have about a tenant's access key.
#[derive(Clone, Copy)]
pub enum Known {
    /// The tenant doesn't exist.
    NoTenant,
    /// The tenant has no key of the name.
    NoKey,
    /// The key exists.
    Key,
}

/// Whether a tenant exists, and a key of it.
pub fn find_key<S: Alter, P: Shelf>(
    connection: &mut Connection<S, P>,
    tenant: &str,
    name: &str,
) -> Result<Known, Error>
    requires inside { InTransaction S.Store P.Shelf connection.old }
    ensures reads { Reads S.Store P.Shelf connection.old connection.new result }
    ensures known { IfOk result (λ known. IsClean S.Store P.Shelf connection.new
        → known ≡ key_known (tables S.Store P.Shelf connection.old) tenant.now name.now) }
    ensures trouble { IfErr result (IsTroubleIf S.Store P.Shelf connection.old connection.new
        ((k : Stored) → find (is_key tenant.now name.now) (tables S.Store P.Shelf connection.old).keys ≡ Some k → IsUtf8 k.secret)) }
{
    if find_tenant(connection, tenant)?.is_none() {
        return Ok(Known::NoTenant);
    }
    if find_secret(connection, tenant, name)?.is_none() {
        return Ok(Known::NoKey);
    }
    Ok(Known::Key)
}
