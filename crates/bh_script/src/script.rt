ghost use Rattle.std.specs.Prelude.{◌≡◌, false, IfOk, IfErr, IsTrue, OnOk};
ghost use Rattle.sqlite.specs.Steps.{over_memory};
ghost use Rattle.bh_base.specs.Connections.{state};
ghost use Rattle.bh_create.specs.Creation.{IsNewHost};
ghost use Rattle.bh_cache.specs.Kept.{no_blocks};
ghost use Rattle.bh_memo.specs.Facts.{nothing};
ghost use Rattle.bh_script.specs.Lines.{bad_line_of};
ghost use Rattle.bh_script.specs.Answers.{WritesScript, WritesScriptAlone, is_write};

use crate::answers::answer_lines;
use crate::error::ScriptError;
use crate::input::BadLine;
use bh_base::connection::Connection;
use bh_create::create;
use bh_dispatch::sql_host::SqlHost;
use bh_link::ends::Sink;
use bh_link::link::Link;
use bh_operation::routes::Routes;
use bh_packs::place::Bounds;
use bh_schema::host::Digester;
use bh_shelf::shelf::Shelf;
use bh_shelf::shelved::Shelved;
use bh_storage::error::Trouble;
use bh_types::block_digest::BlockDigest;
use bh_types::limits::{Limits, Tuning};
use sqlite::{Connection as Database, MemStore};
use std::alloc::Global;

/// Applies a script's events, up to the first invalid line, to a new host in memory with these
/// limits, this digester and the number of its function. Each reply and a line feed are written
/// before the next line is read. For an invalid line, `bad line` and its number are written.
/// Returns that line, if there is one.
///
/// Once its reply is written, nothing of a line, its event and its reply is held in memory.
pub fn answer_script<W: Sink, D: Digester + Drop>(
    alloc: Global,
    bytes: &[u8],
    digester: D,
    digest: BlockDigest,
    limits: Limits,
    tuning: Tuning,
    writer: &mut Link<W>,
) -> Result<Option<BadLine>, ScriptError>
    requires { writer.old.failed ≡ false }
    ensures answers { WritesScript limits digest bytes.now result (W.contents writer.old.inner) (W.contents writer.new.inner) }
    ensures alone { WritesScriptAlone limits digest bytes.now result (W.contents writer.old.inner) (W.contents writer.new.inner) }
    ensures bad_line { IfOk result (λ bad_line. bad_line ≡ bad_line_of bytes.now) }
    ensures going { OnOk result (writer.new.failed ≡ false) }
    ensures failed { IfErr result (λ e. writer.new.failed ≡ is_write e) }
{
    let packs = Shelved::in_memory(alloc, Bounds::USUAL);
    answer_with(
        alloc, bytes, packs, digester, digest, limits, tuning, writer,
    )
}

/// The same with these packs, which can't lie.
fn answer_with<W: Sink, P: Shelf + Drop, D: Digester + Drop>(
    alloc: Global,
    bytes: &[u8],
    packs: P,
    digester: D,
    digest: BlockDigest,
    limits: Limits,
    tuning: Tuning,
    writer: &mut Link<W>,
) -> Result<Option<BadLine>, ScriptError>
    requires going { writer.old.failed ≡ false }
    requires honest { (it : P) → IsTrue (P.Shelf.is_clean it) }
    ensures answers { WritesScript limits digest bytes.now result (W.contents writer.old.inner) (W.contents writer.new.inner) }
    ensures alone { WritesScriptAlone limits digest bytes.now result (W.contents writer.old.inner) (W.contents writer.new.inner) }
    ensures bad_line { IfOk result (λ bad_line. bad_line ≡ bad_line_of bytes.now) }
    ensures going { OnOk result (writer.new.failed ≡ false) }
    ensures failed { IfErr result (λ e. writer.new.failed ≡ is_write e) }
{
    let mut storage = new_host(alloc, packs, digester, digest, limits, tuning)?;
    let routes = Routes::new(alloc)?;
    answer_lines(alloc, &routes, &mut storage, bytes, writer)
}

/// A new host in memory with these packs, with an empty cache and no remembered facts.
fn new_host<P: Shelf + Drop, D: Digester + Drop>(
    alloc: Global,
    packs: P,
    digester: D,
    digest: BlockDigest,
    limits: Limits,
    tuning: Tuning,
) -> Result<SqlHost<MemStore, P, D>, Trouble>
    requires honest { (it : P) → IsTrue (P.Shelf.is_clean it) }
    ensures limits { IfOk result (λ made. made.host.limits ≡ limits) }
    ensures made { IfOk result (λ made. IsNewHost made.host.limits digest
        (state over_memory P.Shelf made.host.connection)) }
    ensures cache { IfOk result (λ made. made.host.cache ≡ no_blocks tuning) }
    ensures memo { IfOk result (λ made. made.memo ≡ nothing) }
{
    let database = Database::open_in_memory(alloc)?;
    let connection = Connection { database, packs };
    match create(connection, digester, digest, limits, tuning) {
        Ok(host) => Ok(SqlHost::new(alloc, host)),
        Err(_) => Err(Trouble::Store),
    }
}
