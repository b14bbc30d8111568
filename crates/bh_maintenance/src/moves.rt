//! Moves a tenant from one host to another, for any stores.

ghost use Rattle.std.specs.Prelude.{IfOk};
ghost use Rattle.bh_blocks.specs.Digests.{digest_by};
ghost use Rattle.bh_maintenance.specs.Found.{IsJoinedBy};
ghost use Rattle.bh_maintenance.specs.Moves.{Tells, Moves, TellsMove};

use crate::counted::Counted;
use crate::joined::Joined;
use crate::printed::Printed;
use crate::remarks::{Remark, tell};
use bh_blocks::digester::{FastDigester, Sha256Digester};
use bh_file::Meter;
use bh_moved::move_tenant;
use bh_schema::host::Digester;
use bh_shelf::shelf::Shelf;
use bh_types::block_digest::BlockDigest;
use bh_types::limits::Tuning;
use bh_types::refusal::Refusal;
use sqlite::{Alter, Error};
use std::alloc::{AllocError, Global};

/// Moves a tenant into a host, with the digester of its blocks.
fn move_with<S: Alter + Drop, P: Shelf + Drop, T: Alter + Drop, Q: Shelf + Drop, D: Digester>(
    from: &mut Joined<S, P>,
    to: &mut Joined<T, Q>,
    alloc: Global,
    digester: &D,
    tenant: &str,
) -> Result<Option<Refusal>, Error>
    requires from { IsJoinedBy S.Store P.Shelf (digest_by from.old.digest) from.old }
    requires to { IsJoinedBy T.Store Q.Shelf D.digest_of to.old }
    ensures { Moves S.Store P.Shelf T.Store Q.Shelf from.old.connection to.old.connection from.new.connection to.new.connection
        D.digest_of tenant.now result }
{
    let size = Tuning::default().block_size;
    move_tenant(
        &mut from.connection,
        &mut to.connection,
        alloc,
        digester,
        size,
        tenant,
    )
}

/// Moves a tenant into a host, and counts the bytes of its blocks.
fn move_by<S: Alter + Drop, P: Shelf + Drop, T: Alter + Drop, Q: Shelf + Drop, D: Digester>(
    from: &mut Joined<S, P>,
    to: &mut Joined<T, Q>,
    alloc: Global,
    digester: &D,
    tenant: &str,
    meter: Meter,
) -> Result<Option<Refusal>, Error>
    requires from { IsJoinedBy S.Store P.Shelf (digest_by from.old.digest) from.old }
    requires to { IsJoinedBy T.Store Q.Shelf D.digest_of to.old }
    ensures { Moves S.Store P.Shelf T.Store Q.Shelf from.old.connection to.old.connection from.new.connection to.new.connection
        D.digest_of tenant.now result }
{
    let counted = Counted::new(digester, meter);
    let moved = move_with(from, to, alloc, &counted, tenant);
    counted.end();
    moved
}

/// Moves a tenant, with the digester of the function in the host's row.
fn move_by_digest<S: Alter + Drop, P: Shelf + Drop, T: Alter + Drop, Q: Shelf + Drop>(
    from: &mut Joined<S, P>,
    to: &mut Joined<T, Q>,
    alloc: Global,
    tenant: &str,
    meter: Meter,
) -> Result<Option<Refusal>, Error>
    requires from { IsJoinedBy S.Store P.Shelf (digest_by from.old.digest) from.old }
    requires to { IsJoinedBy T.Store Q.Shelf (digest_by to.old.digest) to.old }
    ensures { Moves S.Store P.Shelf T.Store Q.Shelf from.old.connection to.old.connection from.new.connection to.new.connection
        (digest_by to.old.digest) tenant.now result }
{
    match to.digest {
        BlockDigest::Sha256 => move_by(from, to, alloc, &Sha256Digester, tenant, meter),
        BlockDigest::Fast => move_by(from, to, alloc, &FastDigester, tenant, meter),
    }
}

/// The printed text for a tenant that was moved, or refused, or not moved because memory or the
/// store failed.
fn told(
    rt: &HostRuntime,
    path: &str,
    outcome: Result<Option<Refusal>, Error>,
    line: Printed,
) -> Result<Printed, AllocError>
    ensures { IfOk result (Tells line outcome) }
{
    match outcome {
        Ok(None) => Ok(line),
        Ok(Some(refusal)) => Printed::refusal(rt.alloc(), refusal),
        Err(error) => {
            tell(rt, path, &Remark::Trouble(error));
            Printed::fault(rt.alloc())
        }
    }
}

/// Moves a tenant into a host, and returns this line, or the printed text if it was not moved. The
/// meter counts the bytes of its blocks.
pub(crate) fn move_and_tell<S: Alter + Drop, P: Shelf + Drop, T: Alter + Drop, Q: Shelf + Drop>(
    rt: &HostRuntime,
    path: &str,
    from: &mut Joined<S, P>,
    to: &mut Joined<T, Q>,
    tenant: &str,
    line: Printed,
    meter: Meter,
) -> Result<Printed, AllocError>
    requires from { IsJoinedBy S.Store P.Shelf (digest_by from.old.digest) from.old }
    requires to { IsJoinedBy T.Store Q.Shelf (digest_by to.old.digest) to.old }
    ensures { IfOk result (TellsMove S.Store P.Shelf T.Store Q.Shelf from.old.connection to.old.connection from.new.connection
        to.new.connection (digest_by to.old.digest) tenant.now line) }
{
    let outcome = move_by_digest(from, to, rt.alloc(), tenant, meter);
    told(rt, path, outcome, line)
}
