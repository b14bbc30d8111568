//! The rows of a host's tables.

ghost use Rattle.std.specs.Prelude.{◌≡◌, true, None, [], IfOk, OnOk};
ghost use Rattle.std.specs.List.{list_all};
ghost use Rattle.sqlite_trees.specs.View.{IsClean};
ghost use Rattle.bh_stored.specs.Cells.{is_fit};
ghost use Rattle.bh_stored.specs.Fits.{AreFit, AreUnfilled, AreAllFit};
ghost use Rattle.bh_stored.specs.Stored.{seen, AreStoredIn};
ghost use Rattle.bh_stored.specs.Stores.{KeepsTrees};
ghost use Rattle.bh_stored.specs.declared.stored.Edition.TheVariants.{First, Second, Third, Fourth, Fifth};

use crate::cells::Kind::{self, Blob, Key, MaybeNumber, Number, Text, Whole};
use crate::cells::{is_fit, number_in};
use crate::failure::Failure;
use crate::trees::table_rows;
use sqlite_trees::store::Store;
use sqlite_value::row::Row;
use std::alloc::Global;

const HOST: [Kind; 6] = [Key, Number, Number, Number, Number, Number];

const TENANTS: [Kind; 6] = [Text, Number, Number, Number, Number, Number];

const KEYS: [Kind; 3] = [Text, Text, Text];

const BUCKETS: [Kind; 5] = [Text, Text, Number, Number, MaybeNumber];

const VERSIONS: [Kind; 9] = [
    Text, Number, Text, Blob, Number, Number, Number, Number, Text,
];

const BLOCKS: [Kind; 3] = [Blob, Number, Blob];

const REFS: [Kind; 6] = [Text, Number, Number, Blob, Number, Number];

const UPLOADS: [Kind; 6] = [Text, Number, Text, Blob, Number, Number];

const PARTS: [Kind; 7] = [Text, Number, Number, Number, Text, Number, Number];

const USES: [Kind; 3] = [Blob, Number, Number];

const LOCKS: [Kind; 2] = [Text, Text];

const RETAINS: [Kind; 3] = [Text, Number, Number];

const TALLIES: [Kind; 4] = [Text, Number, Number, Number];

const GARBAGE: [Kind; 2] = [Key, Number];

const PACKS: [Kind; 3] = [Number, Number, Number];

const PLACES: [Kind; 6] = [Blob, Number, Number, Number, Number, Whole];

/// The edition of a host, by its version, which determines its tables.
#[derive(Clone, Copy, PartialEq, Eq)]
pub enum Edition {
    First,
    /// With tables of locks and of dates.
    Second,
    /// With those and one of tallies.
    Third,
    /// With those, those of packs and of places in them, and some that nothing fills yet.
    Fourth,
    /// With those and one of what nobody needs.
    Fifth,
}

/// As they are stored.
#[derive(Drop)]
pub struct Stored {
    pub host: Vec<Row>,
    pub tenants: Vec<Row>,
    pub keys: Vec<Row>,
    pub buckets: Vec<Row>,
    pub versions: Vec<Row>,
    pub blocks: Vec<Row>,
    pub refs: Vec<Row>,
    pub uploads: Vec<Row>,
    pub parts: Vec<Row>,
    pub uses: Vec<Row>,
    pub locks: Vec<Row>,
    pub retains: Vec<Row>,
    pub tallies: Vec<Row>,
    pub garbage: Vec<Row>,
    pub packs: Vec<Row>,
    /// The rows of the table `placed`.
    pub places: Vec<Row>,
}

/// The number of the first row whose columns aren't of these kinds.
fn first_misfit(kinds: &[Kind], rows: &[Row]) -> Option<u64>
    ensures { result ≡ None → list_all (is_fit kinds.now) rows.now ≡ true }
{
    for row in rows {
        if !is_fit(kinds, row) {
            return Some(number_in(row, 0));
        }
    }
    None
}

/// The rows of a table, which have columns of these kinds.
fn fit_rows<S: Store>(
    alloc: Global,
    store: &mut S,
    tree: u32,
    kinds: &[Kind],
) -> Result<Vec<Row>, Failure>
    ensures keeps { OnOk result (KeepsTrees (S.view store.old) (S.view store.new)) }
    ensures rows { IfOk result (λ rows. IsClean (S.view store.new) → rows.items ≡ (S.view store.old).trees tree) }
    ensures fit { OnOk result (IsClean (S.view store.new) → AreFit kinds.now ((S.view store.old).trees tree)) }
{
    let rows = table_rows(alloc, store, tree)?;
    match first_misfit(kinds, &rows) {
        Some(row) => Err(Failure::Misfit(tree, row)),
        None => Ok(rows),
    }
}

/// Checks that there is no row in a table.
fn no_rows<S: Store>(alloc: Global, store: &mut S, tree: u32) -> Result<(), Failure>
    ensures keeps { OnOk result (KeepsTrees (S.view store.old) (S.view store.new)) }
    ensures none { OnOk result (IsClean (S.view store.new) → (S.view store.old).trees tree ≡ []) }
{
    let rows = table_rows(alloc, store, tree)?;
    match rows.as_slice() {
        [] => Ok(()),
        [row, ..] => Err(Failure::Filled(tree, number_in(row, 0))),
    }
}

/// Checks that there is no row in the tables that nothing fills.
fn none_filled<S: Store>(alloc: Global, store: &mut S) -> Result<(), Failure>
    ensures keeps { OnOk result (KeepsTrees (S.view store.old) (S.view store.new)) }
    ensures none { OnOk result (IsClean (S.view store.new) → AreUnfilled (S.view store.old).trees) }
{
    no_rows(alloc, store, 37)?;
    no_rows(alloc, store, 39)?;
    no_rows(alloc, store, 41)?;
    no_rows(alloc, store, 43)
}

impl Stored {
    /// The rows of the tables that a host of each edition has.
    fn read_first<S: Store>(alloc: Global, store: &mut S) -> Result<Stored, Failure>
        ensures keeps { OnOk result (KeepsTrees (S.view store.old) (S.view store.new)) }
        ensures stored { IfOk result (λ it. IsClean (S.view store.new) → AreStoredIn (seen First (S.view store.old).trees) it) }
        ensures fit { OnOk result (IsClean (S.view store.new) → AreAllFit (seen First (S.view store.old).trees)) }
    {
        Ok(Stored {
            host: fit_rows(alloc, store, 0, &HOST)?,
            tenants: fit_rows(alloc, store, 1, &TENANTS)?,
            keys: fit_rows(alloc, store, 3, &KEYS)?,
            buckets: fit_rows(alloc, store, 5, &BUCKETS)?,
            versions: fit_rows(alloc, store, 7, &VERSIONS)?,
            blocks: fit_rows(alloc, store, 10, &BLOCKS)?,
            refs: fit_rows(alloc, store, 12, &REFS)?,
            uploads: fit_rows(alloc, store, 16, &UPLOADS)?,
            parts: fit_rows(alloc, store, 18, &PARTS)?,
            uses: fit_rows(alloc, store, 23, &USES)?,
            locks: Vec::new(alloc),
            retains: Vec::new(alloc),
            tallies: Vec::new(alloc),
            garbage: Vec::new(alloc),
            packs: Vec::new(alloc),
            places: Vec::new(alloc),
        })
    }

    /// The same rows, and those of the tables of locks and of dates.
    fn read_second<S: Store>(alloc: Global, store: &mut S) -> Result<Stored, Failure>
        ensures keeps { OnOk result (KeepsTrees (S.view store.old) (S.view store.new)) }
        ensures stored { IfOk result (λ it. IsClean (S.view store.new) → AreStoredIn (seen Second (S.view store.old).trees) it) }
        ensures fit { OnOk result (IsClean (S.view store.new) → AreAllFit (seen Second (S.view store.old).trees)) }
    {
        let mut stored = Stored::read_first(alloc, store)?;
        stored.locks = fit_rows(alloc, store, 26, &LOCKS)?;
        stored.retains = fit_rows(alloc, store, 28, &RETAINS)?;
        Ok(stored)
    }

    /// The same rows, and those of the table of tallies.
    fn read_third<S: Store>(alloc: Global, store: &mut S) -> Result<Stored, Failure>
        ensures keeps { OnOk result (KeepsTrees (S.view store.old) (S.view store.new)) }
        ensures stored { IfOk result (λ it. IsClean (S.view store.new) → AreStoredIn (seen Third (S.view store.old).trees) it) }
        ensures fit { OnOk result (IsClean (S.view store.new) → AreAllFit (seen Third (S.view store.old).trees)) }
    {
        let mut stored = Stored::read_second(alloc, store)?;
        stored.tallies = fit_rows(alloc, store, 30, &TALLIES)?;
        Ok(stored)
    }

    /// The same rows, and those of packs and of places, where the tables that nothing fills have none.
    fn read_fourth<S: Store>(alloc: Global, store: &mut S) -> Result<Stored, Failure>
        ensures keeps { OnOk result (KeepsTrees (S.view store.old) (S.view store.new)) }
        ensures stored { IfOk result (λ it. IsClean (S.view store.new) → AreStoredIn (seen Fourth (S.view store.old).trees) it) }
        ensures fit { OnOk result (IsClean (S.view store.new) → AreAllFit (seen Fourth (S.view store.old).trees)) }
    {
        let mut stored = Stored::read_third(alloc, store)?;
        stored.packs = fit_rows(alloc, store, 32, &PACKS)?;
        stored.places = fit_rows(alloc, store, 34, &PLACES)?;
        none_filled(alloc, store)?;
        Ok(stored)
    }

    /// The same rows, and those of the table of what nobody needs.
    fn read_fifth<S: Store>(alloc: Global, store: &mut S) -> Result<Stored, Failure>
        ensures keeps { OnOk result (KeepsTrees (S.view store.old) (S.view store.new)) }
        ensures stored { IfOk result (λ it. IsClean (S.view store.new) → AreStoredIn (seen Fifth (S.view store.old).trees) it) }
        ensures fit { OnOk result (IsClean (S.view store.new) → AreAllFit (seen Fifth (S.view store.old).trees)) }
    {
        let mut stored = Stored::read_fourth(alloc, store)?;
        stored.garbage = fit_rows(alloc, store, 44, &GARBAGE)?;
        Ok(stored)
    }

    /// All rows of a store with the database of a host of this edition. A table that it doesn't
    /// have is empty.
    pub fn read<S: Store>(alloc: Global, store: &mut S, edition: Edition) -> Result<Stored, Failure>
        ensures keeps { OnOk result (KeepsTrees (S.view store.old) (S.view store.new)) }
        ensures stored { IfOk result (λ it. IsClean (S.view store.new) → AreStoredIn (seen edition (S.view store.old).trees) it) }
        ensures fit { OnOk result (IsClean (S.view store.new) → AreAllFit (seen edition (S.view store.old).trees)) }
    {
        match edition {
            Edition::First => Stored::read_first(alloc, store),
            Edition::Second => Stored::read_second(alloc, store),
            Edition::Third => Stored::read_third(alloc, store),
            Edition::Fourth => Stored::read_fourth(alloc, store),
            Edition::Fifth => Stored::read_fifth(alloc, store),
        }
    }
}
