//! Finds the host of a database on its connection, for any store, and opens its packs.

ghost use Rattle.std.specs.Prelude.{◌≡◌, IfOk, IsTrue, MatchResult};
ghost use Rattle.sqlite.specs.Held.{Held, state};
ghost use Rattle.bh_shelf.specs.Listed.{HasListed};
ghost use Rattle.bh_maintenance.specs.Found.{IsSoundIn, IsFoundIn, IsNotFound, IsHostIn, IsJoinedIn};
ghost use Rattle.bh_maintenance.specs.Printing.{IsRefusal};

use crate::ending::Done;
use crate::fault::Fault;
use crate::joined::Joined;
use crate::printed::Printed;
use crate::remarks::{Remark, tell};
use bh_open::{NoHost, Opened, open_host};
use bh_shelf::closed::{ClosedPacks, Listed};
use bh_types::limits::Tuning;
use bh_types::refusal::Refusal;
use sqlite::{Alter, Connection, Error};
use std::alloc::{AllocError, Global};

/// A refusal of a database, which doesn't change.
pub fn refused<S: Alter + Drop>(
    alloc: Global,
    connection: Connection<S>,
    refusal: Refusal,
) -> Result<Done<S>, AllocError>
    ensures { IfOk result (λ done. (done.connection ≡ connection) × IsRefusal refusal done.printed) }
{
    let printed = Printed::refusal(alloc, refusal)?;
    Ok(Done {
        printed,
        connection,
    })
}

/// Why no host was found in a database.
pub fn why_not_found(why: Option<NoHost>, cause: Option<Error>) -> Remark {
    match cause {
        Some(error) => Remark::Trouble(error),
        None => Remark::NoHost(why.unwrap_or(NoHost::NoRow)),
    }
}

/// The opened database of a host, upgraded if needed, or the refusal if there is none.
pub fn found_host<S: Alter + Drop>(
    rt: &HostRuntime,
    path: &str,
    connection: Connection<S>,
) -> Result<Result<Opened<S>, Done<S>>, AllocError>
    ensures { IfOk result (λ found. MatchResult found (IsFoundIn S.Store connection)
        (λ done. IsNotFound (state S.Store connection) (state S.Store done.connection) done.printed)) }
{
    match open_host(rt.alloc(), connection, Tuning::default()) {
        Ok(opened) => Ok(Ok(opened)),
        Err(error) => {
            tell(rt, path, &why_not_found(error.why, error.cause));
            Ok(Err(refused(rt.alloc(), error.connection, error.refusal)?))
        }
    }
}

/// The packs that the rows of the host of a path list, opened. A failure says why they can't be.
pub fn open_packs<K: ClosedPacks>(
    alloc: Global,
    path: &str,
    closed: K,
    listed: &[Listed],
) -> Result<K::Open, Fault>
    ensures kept { IfOk result (λ packs. IsTrue (K.Open.Shelf.is_clean packs)
        → HasListed listed.now (K.has closed) (K.Open.Shelf.kept packs)) }
    ensures seen { IfOk result (λ packs. IsTrue (K.Open.Shelf.is_clean packs)
        → K.Open.Shelf.seen packs ≡ K.Open.Shelf.kept packs) }
{
    match closed.open(listed) {
        Ok(packs) => Ok(packs),
        Err(fault) => Err(Fault::unpacked(alloc, path, &fault)),
    }
}

/// An opened database, joined with its packs. A failure says why they can't be opened.
fn with_packs<S: Alter + Drop, K: ClosedPacks>(
    alloc: Global,
    path: &str,
    opened: Opened<S>,
    closed: K,
) -> Result<Joined<S, K::Open>, Fault>
    ensures { (old : Held S) → IfOk result (λ host. IsHostIn S.Store (K.has closed) old opened
        → IsJoinedIn S.Store K.Open.Shelf (K.has closed) old host) }
{
    let packs = open_packs(alloc, path, closed, &opened.listed)?;
    Ok(Joined::of(opened, packs))
}

/// The host of a database, upgraded if needed and joined with its packs, or the refusal if there is
/// none. A failure says why its packs can't be opened.
pub fn opened_host<S: Alter + Drop, K: ClosedPacks + Drop>(
    rt: &HostRuntime,
    path: &str,
    connection: Connection<S>,
    closed: K,
) -> Result<Result<Joined<S, K::Open>, Done<S>>, Fault>
    requires { IsSoundIn (K.has closed) (state S.Store connection) }
    ensures { IfOk result (λ found. MatchResult found (IsJoinedIn S.Store K.Open.Shelf (K.has closed) connection)
        (λ done. IsNotFound (state S.Store connection) (state S.Store done.connection) done.printed)) }
{
    match found_host(rt, path, connection)? {
        Ok(opened) => Ok(Ok(with_packs(rt.alloc(), path, opened, closed)?)),
        Err(done) => Ok(Err(done)),
    }
}
