//! The stored rows of a store.

ghost use Rattle.std.specs.Prelude.{◌≡◌, IfOk, OnOk};
ghost use Rattle.sqlite_trees.specs.Tree.{IsTable};
ghost use Rattle.sqlite_trees.specs.View.{IsClean};
ghost use Rattle.bh_stored.specs.Stores.{KeepsTrees};

use sqlite_trees::error::StoreError;
use sqlite_trees::store::{Direction, Shape, Store};
use sqlite_value::row::Row;
use std::alloc::Global;

/// The cursor that reads the rows.
const CURSOR: u16 = 0;

/// The rows of a table's tree.
pub fn tree_rows<S: Store>(alloc: Global, store: &mut S, tree: u32) -> Result<Vec<Row>, StoreError>
    ensures keeps { OnOk result (KeepsTrees (S.view store.old) (S.view store.new)) }
    ensures rows { IfOk result (λ rows. IsClean (S.view store.new) → rows.items ≡ (S.view store.old).trees tree) }
{
    let mut rows = Vec::new(alloc);
    let mut row = Row::new(alloc);
    store.seek(CURSOR, tree, &Row::new(alloc), Direction::Forward)?;
    'reading: for _ in 0..u64::MAX {
        if !store.next(CURSOR, &mut row)? {
            return Ok(rows);
        }
        rows.push(row.copy(alloc)?)?;
    }
    Err(StoreError::Unstorable)
}

/// The rows of a tree, whose numbers ascend, as those of a table do.
pub fn table_rows<S: Store>(alloc: Global, store: &mut S, tree: u32) -> Result<Vec<Row>, StoreError>
    ensures keeps { OnOk result (KeepsTrees (S.view store.old) (S.view store.new)) }
    ensures rows { IfOk result (λ rows. IsClean (S.view store.new) → rows.items ≡ (S.view store.old).trees tree) }
    ensures rises { IfOk result (λ rows. IsClean (S.view store.new) → IsTable rows.items) }
{
    if !matches!(store.shape(tree), Shape::Table) {
        return Err(StoreError::Corrupt);
    }
    Ok(tree_rows(alloc, store, tree)?)
}
