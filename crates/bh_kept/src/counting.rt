//! How many bytes nobody needs, counted in a transaction that is rolled back. What is remembered and
//! cached stays: nothing has changed. What packs have is told beside a report.

ghost use Rattle.std.specs.Prelude.{◌≡◌, IfSome};
ghost use Rattle.bh_base.specs.Connections.{state};
ghost use Rattle.bh_base.specs.Connections.{IsClean, IsIntact, stands, tables, HasHost, StaysWithin};
ghost use Rattle.bh_schema.specs.Garbage.{garbage_in};
ghost use Rattle.bh_base.specs.Layer.{LeavesNothingNew, taken_back};

use bh_base::connection::Connection;
use bh_dispatch::sql_host::Carried;
use bh_schema::rows::garbage::garbage_bytes;
use bh_shelf::shelf::Shelf;
use sqlite::Alter;

/// How many bytes the blocks have that no reference names. `None` if memory or the store failed.
pub(crate) fn count<S: Alter, P: Shelf>(connection: &mut Connection<S, P>) -> Option<u64>
    requires { HasHost S.Store P.Shelf connection.old }
    ensures intact { IsIntact S.Store P.Shelf connection.new → IsIntact S.Store P.Shelf connection.old }
    ensures clean { IsClean S.Store P.Shelf connection.new → IsClean S.Store P.Shelf connection.old }
    ensures back { IsClean S.Store P.Shelf connection.new
        → stands S.Store P.Shelf connection.new ≡ taken_back (stands S.Store P.Shelf connection.old) }
    ensures survives { LeavesNothingNew (state S.Store P.Shelf connection.old) (state S.Store P.Shelf connection.new) }
    ensures counted { IfSome result (λ n. IsClean S.Store P.Shelf connection.new → n ≡ garbage_in (tables S.Store P.Shelf connection.old)) }
{
    let counted = look(connection);
    connection.take_back();
    counted
}

/// The same, in a transaction that is left open, if it could be opened.
fn look<S: Alter, P: Shelf>(connection: &mut Connection<S, P>) -> Option<u64>
    requires { HasHost S.Store P.Shelf connection.old }
    ensures within { StaysWithin S.Store P.Shelf connection.old connection.new }
    ensures survives { LeavesNothingNew (state S.Store P.Shelf connection.old) (state S.Store P.Shelf connection.new) }
    ensures counted { IfSome result (λ n. IsClean S.Store P.Shelf connection.new → n ≡ garbage_in (tables S.Store P.Shelf connection.old)) }
{
    match connection.begin() {
        Ok(_) => garbage_bytes(connection).ok(),
        Err(_) => None,
    }
}

/// The line of an order that was carried out. If it was a report and there are packs, standard error
/// tells how many, their bytes, and how many of these blocks have.
pub(crate) fn told(errors: &impl Eprint, carried: Carried) -> String
    ensures { result ≡ carried.line }
{
    if let Some(found) = carried.packs {
        if found.packs > 0 {
            let _ = eprintln!(errors;
                "bucketd: packs {}, bytes {}, of blocks {}",
                found.packs, found.bytes, found.of_blocks
            );
        }
    }
    carried.line
}
