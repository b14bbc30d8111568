ghost use Rattle.std.specs.Prelude.{◌≡◌, ◌≤◌, true, false, None, IfErr, OnOk, OnErr};
ghost use Rattle.bh_base.specs.Connections.{state};
ghost use Rattle.bh_rows.specs.Means.{is_trouble};
ghost use Rattle.bh_types.specs.Limits.{AreLimits};
ghost use Rattle.bh_tables.specs.Schema.{no_schema};
ghost use Rattle.bh_view.specs.Laws.{new_host};
ghost use Rattle.bh_base.specs.Layer.{standing, IsIntact, IsStateClean, taken_back, KeepsDisk, Holds};
ghost use Rattle.bh_create.specs.Creation.{IsEmpty, IsNewHost, IsMaking, Keeps};

use crate::tables::create_tables;
use bh_base::connection::Connection;
use bh_schema::rows::garbage::insert_garbage;
use bh_schema::rows::host::insert_host;
use bh_shelf::shelf::Shelf;
use bh_types::block_digest::BlockDigest;
use bh_types::limits::Limits;
use sqlite::{Alter, Error};

fn fill<S: Alter, P: Shelf>(
    connection: &mut Connection<S, P>,
    min_part: u64,
    max_body: u64,
    digest: u64,
) -> Result<usize, Error>
    requires limits { AreLimits min_part max_body }
    requires digest { digest ≤ 1 }
    requires making { IsStateClean (state S.Store P.Shelf connection.old) → IsMaking no_schema (state S.Store P.Shelf connection.old) }
    ensures keeps { Keeps (state S.Store P.Shelf connection.old) (state S.Store P.Shelf connection.new) }
    ensures holds { OnOk result (IsStateClean (state S.Store P.Shelf connection.new)
        → Holds (new_host min_part max_body digest) (standing (state S.Store P.Shelf connection.new))) }
    ensures trouble { IfErr result (λ e. IsIntact (state S.Store P.Shelf connection.new)
        → (standing (state S.Store P.Shelf connection.old)).limit ≡ None → is_trouble e ≡ true) }
{
    create_tables(connection)?;
    insert_garbage(connection, 0)?;
    insert_host(connection, min_part, max_body, digest)
}

fn commit_new<S: Alter, P: Shelf>(
    connection: &mut Connection<S, P>,
    limits: Limits,
    digest: BlockDigest,
) -> Result<usize, Error>
    requires { IsStateClean (state S.Store P.Shelf connection.old) → IsEmpty (state S.Store P.Shelf connection.old) }
    ensures follows { KeepsDisk (state S.Store P.Shelf connection.old) (state S.Store P.Shelf connection.new) }
    ensures made { OnOk result (IsStateClean (state S.Store P.Shelf connection.new)
        → IsNewHost limits digest (state S.Store P.Shelf connection.new)) }
    ensures kept { OnErr result (IsStateClean (state S.Store P.Shelf connection.new)
        → (standing (state S.Store P.Shelf connection.new)).kept ≡ (standing (state S.Store P.Shelf connection.old)).kept) }
    ensures trouble { IfErr result (λ e. IsIntact (state S.Store P.Shelf connection.new)
        → (standing (state S.Store P.Shelf connection.old)).limit ≡ None
        → (IsStateClean (state S.Store P.Shelf connection.old) → (standing (state S.Store P.Shelf connection.old)).inside ≡ false)
        → is_trouble e ≡ true) }
{
    connection.begin()?;
    fill(
        connection,
        limits.min_part,
        limits.max_body,
        digest.number(),
    )?;
    connection.commit()
}

/// Creates a host in an empty database and commits it. After an error there is no trace of it.
pub fn make<S: Alter, P: Shelf>(
    connection: &mut Connection<S, P>,
    limits: Limits,
    digest: BlockDigest,
) -> Result<(), Error>
    requires { IsStateClean (state S.Store P.Shelf connection.old) → IsEmpty (state S.Store P.Shelf connection.old) }
    ensures follows { KeepsDisk (state S.Store P.Shelf connection.old) (state S.Store P.Shelf connection.new) }
    ensures made { OnOk result (IsStateClean (state S.Store P.Shelf connection.new)
        → IsNewHost limits digest (state S.Store P.Shelf connection.new)) }
    ensures back { OnErr result (IsStateClean (state S.Store P.Shelf connection.new)
        → standing (state S.Store P.Shelf connection.new) ≡ taken_back (standing (state S.Store P.Shelf connection.old))) }
    ensures trouble { IfErr result (λ e. IsIntact (state S.Store P.Shelf connection.new)
        → (standing (state S.Store P.Shelf connection.old)).limit ≡ None
        → (IsStateClean (state S.Store P.Shelf connection.old) → (standing (state S.Store P.Shelf connection.old)).inside ≡ false)
        → is_trouble e ≡ true) }
{
    match commit_new(connection, limits, digest) {
        Ok(_) => Ok(()),
        Err(error) => {
            connection.take_back();
            Err(error)
        }
    }
}
