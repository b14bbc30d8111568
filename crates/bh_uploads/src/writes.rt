ghost use Rattle.std.specs.Prelude.{◌<◌, ◌^◌};
ghost use Rattle.bh_base.specs.Connections.{InTransaction};
ghost use Rattle.bh_view.specs.Bodies.{body_dropped};
ghost use Rattle.bh_objects.specs.Calls.{Changes};
ghost use Rattle.bh_uploads.specs.Writes.{without_bodies, upload_closed};

use crate::rows;
use bh_base::connection::Connection;
use bh_blocks::bodies::drop_body;
use bh_schema::trouble::or_trouble;
use bh_shelf::shelf::Shelf;
use bh_storage::error::Trouble;
use bh_types::counters::COUNTER_END;
use bh_types::names::TenantName;
use sqlite::Alter;

/// Deletes the body of this entry number.
pub fn drop_entry_body<S: Alter, P: Shelf>(
    connection: &mut Connection<S, P>,
    tenant: &TenantName,
    body: u64,
) -> Result<(), Trouble>
    requires { InTransaction S.Store P.Shelf connection.old }
    ensures changes { Changes S.Store P.Shelf connection.old connection.new result (body_dropped (tenant.now, body)) }
{
    // No counter reaches this number.
    if body >= COUNTER_END {
        return Err(Trouble::Store);
    }
    or_trouble(drop_body(connection, tenant.as_str(), body))?;
    Ok(())
}

/// Deletes bodies, one after another.
pub fn drop_bodies<S: Alter, P: Shelf>(
    connection: &mut Connection<S, P>,
    tenant: &TenantName,
    bodies: &[u64],
) -> Result<(), Trouble>
    requires { InTransaction S.Store P.Shelf connection.old }
    ensures changes { Changes S.Store P.Shelf connection.old connection.new result (without_bodies tenant.now bodies.now) }
{
    for body in bodies {
        drop_entry_body(connection, tenant, *body)?;
    }
    Ok(())
}

/// Deletes an upload with its parts, whose bodies these are.
pub fn close_upload<S: Alter, P: Shelf>(
    connection: &mut Connection<S, P>,
    tenant: &TenantName,
    number: u64,
    bodies: &[u64],
) -> Result<(), Trouble>
    requires inside { InTransaction S.Store P.Shelf connection.old }
    requires small { number < 2 ^ 62 }
    ensures changes { Changes S.Store P.Shelf connection.old connection.new result (upload_closed tenant.now number bodies.now) }
{
    or_trouble(rows::kept::remove_parts(connection, tenant.as_str(), number))?;
    drop_bodies(connection, tenant, bodies)?;
    or_trouble(rows::uploads::delete_upload(connection, tenant.as_str(), number))?;
    Ok(())
}
