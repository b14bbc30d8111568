//! The last stamp.

ghost use Rattle.std.specs.Prelude.{max, OnOk};
ghost use Rattle.bh_view.specs.View.{latest_of, with_latest};
ghost use Rattle.bh_base.specs.Connections.{IsClean, tables, InTransaction, Becomes};
ghost use Rattle.bh_schema.specs.Calls.{Reads, Writes};

use crate::cells::in_range;
use bh_base::connection::Connection;
use bh_schema::rows::host::{find_latest, set_latest};
use bh_shelf::shelf::Shelf;
use sqlite::{Alter, Error};

/// Sets the second host's last stamp to the later of the two hosts'.
pub fn stamp_later<S: Alter, P: Shelf, T: Alter, Q: Shelf>(
    from: &mut Connection<S, P>,
    to: &mut Connection<T, Q>,
) -> Result<(), Error>
    requires reading { InTransaction S.Store P.Shelf from.old }
    requires inside { InTransaction T.Store Q.Shelf to.old }
    ensures reads { Reads S.Store P.Shelf from.old from.new result }
    ensures writes { Writes T.Store Q.Shelf to.old to.new result }
    ensures stamped { OnOk result (IsClean S.Store P.Shelf from.new → Becomes T.Store Q.Shelf to.old to.new
        (with_latest (max (latest_of (tables T.Store Q.Shelf to.old)) (latest_of (tables S.Store P.Shelf from.old))))) }
{
    let given = find_latest(from)?.unwrap_or(0);
    let own = find_latest(to)?.unwrap_or(0);
    let stamp = in_range(own.max(given))?;
    set_latest(to, stamp)?;
    Ok(())
}
