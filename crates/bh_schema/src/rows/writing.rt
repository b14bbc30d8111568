ghost use Rattle.sqlite.specs.Held.{state};
ghost use Rattle.sqlite.specs.State.{HasCleanDisk, IsLive, Survives, Executes, CommitsBy};
ghost use Rattle.sqlite.specs.Values.{bound};

use sqlite::types::ValueRef;
use sqlite::{Alter, Connection, Error};

/// Runs a statement that writes rows, and returns their number.
pub fn write<S: Alter>(
    connection: &mut Connection<S>,
    text: &str,
    params: &[ValueRef<'_>],
) -> Result<usize, Error>
    ensures live { IsLive (state S.Store connection.old) }
    ensures runs { HasCleanDisk (state S.Store connection.new)
        → Executes text.now (bound params.now) (state S.Store connection.old) (state S.Store connection.new) result }
    ensures survives { Survives (state S.Store connection.old) (state S.Store connection.new)
        (CommitsBy text.now (bound params.now) (state S.Store connection.old)) }
{
    // Asked for what it ensures: the rows obey the schema.
    let _schema = connection.schema();
    connection.execute(text, params)
}
