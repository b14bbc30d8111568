ghost use Rattle.std.specs.Prelude.{◌≡◌, ◌≢◌, ◌↔◌, true, false, None, IsTrue, IsSome, IfSome, IfOk, IfErr};
ghost use Rattle.bh_base.specs.Connections.{state};
ghost use Rattle.bh_types.specs.declared.refusal.Refusal.TheVariants as refusal;
ghost use Rattle.bh_rows.specs.Means.{is_trouble};
ghost use Rattle.bh_tables.specs.Schema.{no_schema};
ghost use Rattle.bh_cache.specs.Kept.{no_blocks};
ghost use Rattle.bh_base.specs.Layer.{standing, IsIntact, IsStateClean, taken_back, KeepsDisk};
ghost use Rattle.bh_create.specs.Creation.{IsEmpty, IsNewHost};

use crate::fill::make;
use bh_base::connection::Connection;
use bh_cache::blocks::BlockCache;
use bh_schema::host::{Digester, Host};
use bh_shelf::shelf::Shelf;
use bh_types::block_digest::BlockDigest;
use bh_types::limits::{Limits, Tuning};
use bh_types::refusal::Refusal;
use sqlite::{Alter, Error};
use sqlite_schema::schema::Schema;

/// Why no host was created, and the arguments.
#[derive(Drop)]
pub struct CreateError<S: Alter + Drop, P: Shelf + Drop, D: Digester + Drop> {
    /// `NotAHostFile` or `Unavailable`.
    pub refusal: Refusal,
    /// The error of the database, if the refusal is `Unavailable`.
    pub cause: Option<Error>,
    /// The database.
    pub connection: Connection<S, P>,
    /// The digester that was passed.
    pub digester: D,
}

fn is_empty(schema: &Schema) -> bool
    ensures { IsTrue result ↔ (schema.now ≡ no_schema) }
{
    schema.tables.is_empty() && schema.indexes.is_empty() && schema.views.is_empty()
}

/// Creates a host in an empty database, with these limits, this digest function, no tenant and the
/// last stamp 0 (seconds since 1970). It is committed, so that it survives a crash. The cache is
/// empty.
///
/// Fails with `NotAHostFile` if the database has a table, an index or a view; then the connection
/// doesn't change. Fails with `Unavailable` if memory or the store failed, if a transaction was
/// open, or if a limit on a statement's steps is set. An open transaction is then rolled back, and
/// the database is as it was last committed.
pub fn create<S: Alter + Drop, P: Shelf + Drop, D: Digester + Drop>(
    connection: Connection<S, P>,
    digester: D,
    digest: BlockDigest,
    limits: Limits,
    tuning: Tuning,
) -> Result<Host<S, P, D>, CreateError<S, P, D>>
    ensures given { IfOk result (λ host. (host.limits ≡ limits) × (host.cache ≡ no_blocks tuning) × (host.digester ≡ digester)) }
    ensures empty { IfOk result (λ host. IsEmpty (state S.Store P.Shelf connection)) }
    ensures follows { IfOk result (λ host. KeepsDisk (state S.Store P.Shelf connection) (state S.Store P.Shelf host.connection)) }
    ensures made { IfOk result (λ host. IsStateClean (state S.Store P.Shelf host.connection)
        → IsNewHost limits digest (state S.Store P.Shelf host.connection)) }
    ensures back { IfErr result (λ e. e.digester ≡ digester) }
    ensures refused { IfErr result (λ e. e.refusal ≡ refusal.NotAHostFile
        → (e.connection ≡ connection) × ¬ IsEmpty (state S.Store P.Shelf connection)) }
    ensures failed { IfErr result (λ e. e.refusal ≢ refusal.NotAHostFile → (e.refusal ≡ refusal.Unavailable)
        × IsEmpty (state S.Store P.Shelf connection) × KeepsDisk (state S.Store P.Shelf connection) (state S.Store P.Shelf e.connection)
        × (IsStateClean (state S.Store P.Shelf e.connection)
        → standing (state S.Store P.Shelf e.connection) ≡ taken_back (standing (state S.Store P.Shelf connection)))) }
    ensures cause { IfErr result (λ e. (e.refusal ≡ refusal.Unavailable) ↔ IsSome e.cause) }
    ensures trouble { IfErr result (λ e. IfSome e.cause (λ cause. IsIntact (state S.Store P.Shelf e.connection)
        → (standing (state S.Store P.Shelf connection)).limit ≡ None
        → (IsStateClean (state S.Store P.Shelf connection) → (standing (state S.Store P.Shelf connection)).inside ≡ false)
        → is_trouble cause ≡ true)) }
{
    if !is_empty(connection.database.schema()) {
        return Err(CreateError {
            refusal: Refusal::NotAHostFile,
            cause: None,
            connection,
            digester,
        });
    }
    let mut connection = connection;
    match make(&mut connection, limits, digest) {
        Ok(()) => Ok(Host {
            connection,
            digester,
            limits,
            cache: BlockCache::new(tuning),
        }),
        Err(error) => Err(CreateError {
            refusal: Refusal::Unavailable,
            cause: Some(error),
            connection,
            digester,
        }),
    }
}
