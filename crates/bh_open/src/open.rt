ghost use Rattle.std.specs.Prelude.{◌≡◌, ◌≢◌, ◌↔◌, true, false, map, None, IsSome, IfSome, IfOk, IfErr, OnOk, OnErr};
ghost use Rattle.sqlite.specs.Held.{state};
ghost use Rattle.bh_types.specs.BlockDigests.{digest_number};
ghost use Rattle.bh_types.specs.Limits.{HostLimits};
ghost use Rattle.bh_types.specs.declared.refusal.Refusal.TheVariants as refusal;
ghost use Rattle.bh_rows.specs.Form.{AreRows};
ghost use Rattle.bh_rows.specs.Means.{is_trouble};
ghost use Rattle.bh_shelf.specs.Contents.{Contents};
ghost use Rattle.bh_tables.specs.Packs.{packs_in};
ghost use Rattle.bh_tables.specs.Rows.{pack_form};
ghost use Rattle.bh_tables.specs.Schema.{Octets, host_schema};
ghost use Rattle.bh_tables.specs.Typed.{IsHost, host_form};
ghost use Rattle.bh_view.specs.Bodies.{IsSoundHost};
ghost use Rattle.bh_view.specs.View.{latest_of};
ghost use Rattle.bh_storage.specs.Calls.{IsAtRest};
ghost use Rattle.bh_base.specs.Databases.{IsIntact, IsOpen, IsClean, stands, tables};
ghost use Rattle.bh_cache.specs.Kept.{no_blocks};
ghost use Rattle.bh_base.specs.Layer.{taken_back, KeepsDisk, LeavesNothingNew};
ghost use Rattle.bh_base.specs.Placed.{filled};
ghost use Rattle.bh_migration.specs.Listing.{Lists};
ghost use Rattle.bh_migration.specs.Migration.{Settles};
ghost use Rattle.bh_open.specs.Opening.{
  digest_in,
  IsHostOf,
  IsSettled,
  IsKept,
  Reads,
  Finds,
  FindsIn,
  IsTypedFor,
  IsLegible,
  Opens,
  LeavesOver,
};
ghost use Rattle.bh_open.specs.Packed.{tables_beside, seen_beside, listed_of};
ghost use Rattle.bh_open.specs.Versions.{schema_of, IsAnyHost, IsEarlierSchema, IsHostsSchema, IsTypedIfEarlier};

use crate::found::{FoundHost, HostVersion, NoHost};
use crate::packs::see_packs;
use crate::row::{found_in, host_rows};
use crate::tables::{version_of, why_none};
use bh_base::connection::Connection as Joined;
use bh_base::transactions::{begin, take_back};
use bh_cache::blocks::BlockCache;
use bh_migration::{Earlier, bring_over};
use bh_schema::host::{Digester, Host};
use bh_shelf::closed::Listed;
use bh_shelf::shelf::Shelf;
use bh_types::block_digest::BlockDigest;
use bh_types::limits::{Limits, Tuning};
use bh_types::refusal::Refusal;
use sqlite::{Alter, Connection, Error, ErrorCode};
use std::alloc::Global;

/// Why no host was opened, and the arguments.
#[derive(Drop)]
pub struct OpenError<S: Alter + Drop> {
    /// `NotAHostFile` or `Unavailable`.
    pub refusal: Refusal,
    /// Why it is not a host's, if the refusal is `NotAHostFile`.
    pub why: Option<NoHost>,
    /// The error of the database, if the refusal is `Unavailable`.
    pub cause: Option<Error>,
    /// The database.
    pub connection: Connection<S>,
}

/// The opened database of a host.
#[derive(Drop)]
pub struct Opened<S: Alter + Drop> {
    /// The database.
    pub connection: Connection<S>,
    /// The limits that the host was created with.
    pub limits: Limits,
    /// The settings of this process.
    pub tuning: Tuning,
    /// The function that names its blocks.
    pub digest: BlockDigest,
    /// Its last stamp, in seconds since 1970; 0 if there is none.
    pub latest: u64,
    /// The rows of its table of packs.
    pub listed: Vec<Listed>,
}

impl<S: Alter + Drop> Opened<S> {
    /// The host with these packs, and with an empty cache. The digester must be that of the function
    /// that names its blocks.
    pub fn into_host<P: Shelf + Drop, D: Digester + Drop>(
        self,
        packs: P,
        digester: D,
    ) -> Host<S, P, D>
        ensures { result ≡ record {
          connection = record { database = self.connection; packs = packs };
          digester = digester;
          limits = self.limits;
          cache = no_blocks self.tuning;
        } }
    {
        let Opened {
            connection,
            limits,
            tuning,
            digest: _,
            latest: _,
            listed: _,
        } = self;
        Host {
            connection: Joined {
                database: connection,
                packs,
            },
            digester,
            limits,
            cache: BlockCache::new(tuning),
        }
    }
}

/// Reads the host's row, in a database with the tables of this version. Afterwards a transaction is
/// open, or was rolled back.
fn read_host<S: Alter>(
    connection: &mut Connection<S>,
    version: HostVersion,
) -> Result<Result<FoundHost, NoHost>, Error>
    requires schema { (stands S.Store connection.old).now.schema ≡ schema_of version }
    ensures kept { IsKept (state S.Store connection.old) (state S.Store connection.new) }
    ensures of { IfOk result (λ found. IfOk found (λ f. f.version ≡ version)) }
    ensures read { IfOk result (λ found. IsClean S.Store connection.new
        → AreRows host_form ((stands S.Store connection.old).now.trees 0)
        → Reads version (tables S.Store connection.old).host found) }
    ensures trouble { IfErr result (λ e. IsIntact S.Store connection.new → (stands S.Store connection.old).limit ≡ None
        → (stands S.Store connection.old).inside ≡ false
        → AreRows host_form ((stands S.Store connection.old).now.trees 0) → is_trouble e ≡ true) }
{
    begin(connection)?;
    let rows = host_rows(connection, version)?;
    found_in(version, rows.as_slice())
}

/// The values in the host's row, if the database is a host's and no transaction is open.
fn find_host<S: Alter>(
    alloc: Global,
    connection: &mut Connection<S>,
) -> Result<Result<FoundHost, NoHost>, Error>
    ensures kept { IsKept (state S.Store connection.old) (state S.Store connection.new) }
    ensures settled { IfOk result (λ found. IsSettled (state S.Store connection.old)) }
    ensures schema { IfOk result (λ found. IfOk found (λ f. (stands S.Store connection.old).now.schema ≡ schema_of f.version)) }
    ensures finds { IfOk result (λ found. IsClean S.Store connection.new → Finds (stands S.Store connection.old).now found) }
    ensures trouble { IfErr result (λ e. IsIntact S.Store connection.new → (stands S.Store connection.old).limit ≡ None
        → (stands S.Store connection.old).inside ≡ false
        → AreRows host_form ((stands S.Store connection.old).now.trees 0) → is_trouble e ≡ true) }
{
    if !connection.is_autocommit() {
        return Err(Error::SqliteFailure(ErrorCode::TransactionState));
    }
    match version_of(alloc, connection.schema())? {
        Some(version) => read_host(connection, version),
        None => Ok(Err(why_none(connection.schema()))),
    }
}

/// Reads the row of a host of any version, or returns why the database is not a host's. It changes
/// nothing, and no transaction is open afterwards.
pub fn look<S: Alter>(
    alloc: Global,
    connection: &mut Connection<S>,
) -> Result<Result<FoundHost, NoHost>, Error>
    ensures follows { KeepsDisk (state S.Store connection.old) (state S.Store connection.new) }
    ensures survives { IsOpen S.Store connection.old → LeavesNothingNew (state S.Store connection.old) (state S.Store connection.new) }
    ensures settled { IfOk result (λ found. IsSettled (state S.Store connection.old)) }
    ensures same { OnOk result (IsClean S.Store connection.new → stands S.Store connection.new ≡ stands S.Store connection.old) }
    ensures back { OnErr result (IsClean S.Store connection.new
        → stands S.Store connection.new ≡ taken_back (stands S.Store connection.old)) }
    ensures schema { IfOk result (λ found. IfOk found (λ f. (stands S.Store connection.old).now.schema ≡ schema_of f.version)) }
    ensures finds { IfOk result (λ found. IsClean S.Store connection.new → Finds (stands S.Store connection.old).now found) }
    ensures trouble { IfErr result (λ e. IsIntact S.Store connection.new → (stands S.Store connection.old).limit ≡ None
        → (stands S.Store connection.old).inside ≡ false
        → AreRows host_form ((stands S.Store connection.old).now.trees 0) → is_trouble e ≡ true) }
{
    let found = find_host(alloc, connection);
    take_back(connection);
    found
}

/// Upgrades the database of an older host to the present version, and returns the rows of its table of
/// packs. One of the present version is unchanged.
fn bring<S: Alter>(
    alloc: Global,
    connection: &mut Connection<S>,
    version: HostVersion,
) -> Result<Vec<Listed>, Error>
    requires outside { IsClean S.Store connection.old → (stands S.Store connection.old).inside ≡ false }
    requires committed { IsClean S.Store connection.old → (stands S.Store connection.old).now ≡ (stands S.Store connection.old).kept }
    requires schema { IsClean S.Store connection.old → (stands S.Store connection.old).now.schema ≡ schema_of version }
    ensures follows { KeepsDisk (state S.Store connection.old) (state S.Store connection.new) }
    ensures opens { OnOk result (IsClean S.Store connection.new
        → Opens version (stands S.Store connection.old) (stands S.Store connection.new)) }
    ensures listed { IfOk result (λ listed. IsClean S.Store connection.new → Lists (stands S.Store connection.new).now listed.items) }
    ensures back { OnErr result (IsClean S.Store connection.new
        → stands S.Store connection.new ≡ taken_back (stands S.Store connection.old)) }
    ensures crash { LeavesOver (state S.Store connection.old) (state S.Store connection.new) }
    ensures trouble { IfErr result (λ e. IsIntact S.Store connection.new → (stands S.Store connection.old).limit ≡ None
        → (IsClean S.Store connection.old → IsTypedFor version (stands S.Store connection.old).now) → is_trouble e ≡ true) }
{
    match version {
        HostVersion::First => bring_over(alloc, connection, Earlier::First),
        HostVersion::Second => bring_over(alloc, connection, Earlier::Second),
        HostVersion::Third => bring_over(alloc, connection, Earlier::Third),
        HostVersion::Fourth => bring_over(alloc, connection, Earlier::Fourth),
        HostVersion::Fifth => see_packs(alloc, connection),
    }
}

/// A host that was found, and the rows of its table of packs.
#[derive(Drop)]
struct Brought {
    host: FoundHost,
    listed: Vec<Listed>,
}

/// The values in the row of a database's host, and its packs. Afterwards it is of the present version.
fn find_and_bring<S: Alter>(
    alloc: Global,
    connection: &mut Connection<S>,
) -> Result<Result<Brought, NoHost>, Error>
    ensures follows { KeepsDisk (state S.Store connection.old) (state S.Store connection.new) }
    ensures crash { IsOpen S.Store connection.old → LeavesOver (state S.Store connection.old) (state S.Store connection.new) }
    ensures schema { IfOk result (λ found. IfOk found (λ b. (stands S.Store connection.old).now.schema ≡ schema_of b.host.version)) }
    ensures opens { IfOk result (λ found. IfOk found (λ b. IsClean S.Store connection.new
        → Opens b.host.version (stands S.Store connection.old) (stands S.Store connection.new))) }
    ensures listed { IfOk result (λ found. IfOk found (λ b. IsClean S.Store connection.new
        → Lists (stands S.Store connection.new).now b.listed.items)) }
    ensures finds { IfOk result (λ found. IsClean S.Store connection.new → FindsIn (stands S.Store connection.old).now found) }
    ensures same { IfOk result (λ found. IfErr found (λ why. IsClean S.Store connection.new
        → stands S.Store connection.new ≡ stands S.Store connection.old)) }
    ensures quiet { IfOk result (λ found. IfErr found (λ why. IsOpen S.Store connection.old
        → LeavesNothingNew (state S.Store connection.old) (state S.Store connection.new))) }
    ensures back { OnErr result (IsClean S.Store connection.new
        → stands S.Store connection.new ≡ taken_back (stands S.Store connection.old)) }
    ensures trouble { IfErr result (λ e. IsIntact S.Store connection.new → (stands S.Store connection.old).limit ≡ None
        → (stands S.Store connection.old).inside ≡ false → IsLegible (stands S.Store connection.old).now → is_trouble e ≡ true) }
{
    match look(alloc, connection)? {
        Ok(host) => {
            let listed = bring(alloc, connection, host.version)?;
            Ok(Ok(Brought { host, listed }))
        }
        Err(why) => Ok(Err(why)),
    }
}

/// Opens the host in a database. A host of an earlier version is upgraded in one commit, with all
/// its contents; one of the present version is unchanged.
///
/// Fails with `NotAHostFile` if the database's tables are not a host's, or if its row isn't one of
/// their version with limits in range and a known digest function. An empty database has no tables,
/// so it fails too. Fails with `Unavailable` if memory or the store failed, if a row can't be read, if a
/// block of a host of an earlier version has its bytes in a pack, if a transaction was open, or if a
/// limit on a statement's steps is set. An open transaction is rolled back.
///
/// No pack is read. What is said of the host is so whatever packs are put beside it.
pub fn open_host<S: Alter + Drop>(
    alloc: Global,
    connection: Connection<S>,
    tuning: Tuning,
) -> Result<Opened<S>, OpenError<S>>
    ensures given { IfOk result (λ opened. opened.tuning ≡ tuning) }
    ensures schema { IfOk result (λ opened. IsHostsSchema (stands S.Store connection).now.schema) }
    ensures same { IfOk result (λ opened. IsClean S.Store opened.connection → (stands S.Store connection).now.schema ≡ host_schema
        → stands S.Store opened.connection ≡ stands S.Store connection) }
    ensures brought { IfOk result (λ opened. IsClean S.Store opened.connection → IsEarlierSchema (stands S.Store connection).now.schema
        → Settles (stands S.Store connection) (stands S.Store opened.connection)) }
    ensures shows { (packs : Contents) → IfOk result (λ opened. IsClean S.Store opened.connection
        → IsTypedIfEarlier (stands S.Store connection).now
        → (seen_beside packs opened.limits (state S.Store opened.connection)).now ≡ tables_beside packs (stands S.Store connection).now) }
    ensures listed { IfOk result (λ opened. IsClean S.Store opened.connection
        → AreRows pack_form ((stands S.Store opened.connection).now.trees 32)
        → opened.listed.items ≡ map listed_of (packs_in (stands S.Store opened.connection).now.trees)) }
    ensures settled { IfOk result (λ opened. IsClean S.Store opened.connection
        → ((stands S.Store opened.connection).inside ≡ false)
        × ((stands S.Store opened.connection).kept ≡ (stands S.Store opened.connection).now)) }
    ensures opened { IfOk result (λ opened. IsClean S.Store opened.connection → IsAnyHost (stands S.Store connection).now
        → IsHostOf opened.limits (stands S.Store connection).now) }
    ensures beside { (packs : Contents) → IfOk result (λ opened. IsClean S.Store opened.connection
        → IsAnyHost (filled packs (stands S.Store connection).now)
        → IsHostOf opened.limits (filled packs (stands S.Store connection).now)) }
    ensures rest { (packs : Contents) (digest : Octets → Octets) → IfOk result (λ opened. IsClean S.Store opened.connection
        → IsTypedIfEarlier (stands S.Store connection).now
        → IsSoundHost digest (seen_beside packs opened.limits (state S.Store opened.connection)).now
        → IsAtRest (IsSoundHost digest) (seen_beside packs opened.limits (state S.Store opened.connection))) }
    ensures latest { (packs : Contents) (digest : Octets → Octets) → IfOk result (λ opened. IsClean S.Store opened.connection
        → IsTypedIfEarlier (stands S.Store connection).now
        → IsSoundHost digest (seen_beside packs opened.limits (state S.Store opened.connection)).now
        → opened.latest ≡ latest_of (seen_beside packs opened.limits (state S.Store opened.connection)).now) }
    ensures named { (packs : Contents) (digest : Octets → Octets) → IfOk result (λ opened. IsClean S.Store opened.connection
        → IsTypedIfEarlier (stands S.Store connection).now
        → IsSoundHost digest (seen_beside packs opened.limits (state S.Store opened.connection)).now
        → digest_number opened.digest ≡ digest_in (seen_beside packs opened.limits (state S.Store opened.connection)).now) }
    ensures follows { IfOk result (λ opened. KeepsDisk (state S.Store connection) (state S.Store opened.connection)) }
    ensures crash { IfOk result (λ opened. IsOpen S.Store connection
        → LeavesOver (state S.Store connection) (state S.Store opened.connection)) }
    ensures refused { IfErr result (λ e. e.refusal ≡ refusal.NotAHostFile → IsClean S.Store e.connection
        → (stands S.Store e.connection ≡ stands S.Store connection)
        × ((limits : HostLimits) → ¬ IsHostOf limits (stands S.Store connection).now)) }
    ensures without { (packs : Contents) → IfErr result (λ e. e.refusal ≡ refusal.NotAHostFile → IsClean S.Store e.connection
        → (limits : HostLimits) → ¬ IsHostOf limits (filled packs (stands S.Store connection).now)) }
    ensures quiet { IfErr result (λ e. e.refusal ≡ refusal.NotAHostFile → IsOpen S.Store connection
        → LeavesNothingNew (state S.Store connection) (state S.Store e.connection)) }
    ensures failed { IfErr result (λ e. e.refusal ≢ refusal.NotAHostFile → (e.refusal ≡ refusal.Unavailable)
        × (IsClean S.Store e.connection → stands S.Store e.connection ≡ taken_back (stands S.Store connection))) }
    ensures keeps { IfErr result (λ e. KeepsDisk (state S.Store connection) (state S.Store e.connection)) }
    ensures leaves { IfErr result (λ e. IsOpen S.Store connection
        → LeavesOver (state S.Store connection) (state S.Store e.connection)) }
    ensures cause { IfErr result (λ e. (e.refusal ≡ refusal.Unavailable) ↔ IsSome e.cause) }
    ensures trouble { IfErr result (λ e. IfSome e.cause (λ cause. IsIntact S.Store e.connection
        → (stands S.Store connection).limit ≡ None → (stands S.Store connection).inside ≡ false
        → IsAnyHost (stands S.Store connection).now → is_trouble cause ≡ true)) }
    ensures packed { (packs : Contents) → IfErr result (λ e. IfSome e.cause (λ cause. IsIntact S.Store e.connection
        → (stands S.Store connection).limit ≡ None → (stands S.Store connection).inside ≡ false
        → IsHost (filled packs (stands S.Store connection).now) → is_trouble cause ≡ true)) }
{
    let mut connection = connection;
    match find_and_bring(alloc, &mut connection) {
        Ok(found) => match found {
            Ok(Brought { host, listed }) => Ok(Opened {
                connection,
                limits: host.limits,
                tuning,
                digest: host.digest,
                latest: host.latest,
                listed,
            }),
            Err(why) => Err(OpenError {
                refusal: Refusal::NotAHostFile,
                why: Some(why),
                cause: None,
                connection,
            }),
        },
        Err(error) => Err(OpenError {
            refusal: Refusal::Unavailable,
            why: None,
            cause: Some(error),
            connection,
        }),
    }
}
