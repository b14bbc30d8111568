//! The check of a host's tables.

ghost use Rattle.std.specs.Prelude.{◌≡◌, ◌≢◌, ◌⊎◌, List, [], map, None, OnOk, IfOk, IfSome, IsTrue};
ghost use Rattle.std.specs.List.{AllByRecursion};
ghost use Rattle.sqlite.specs.Effect.{IsDatabase};
ghost use Rattle.sqlite.specs.Tree.{Trees};
ghost use Rattle.sqlite.specs.Held.{state};
ghost use Rattle.sqlite.specs.Order.{Row as Columns};
ghost use Rattle.sqlite_trees.specs.View.{IsClean};
ghost use Rattle.bh_rows.specs.Form.{AreRows, typed};
ghost use Rattle.bh_tables.specs.Hosts.{tables_opened};
ghost use Rattle.bh_tables.specs.Packs.{packs_in, places_in};
ghost use Rattle.bh_tables.specs.Rows.{pack_form, place_form};
ghost use Rattle.bh_tables.specs.Schema.{Octets, first_schema, second_schema, third_schema, fourth_schema, host_schema};
ghost use Rattle.bh_view.specs.Bodies.{IsSoundHost};
ghost use Rattle.bh_shelf.specs.Contents.{Contents};
ghost use Rattle.bh_shelf.specs.Listed.{HasListed};
ghost use Rattle.bh_base.specs.Layer.{IsStateClean};
ghost use Rattle.bh_base.specs.Placed.{filled_trees};
ghost use Rattle.bh_open.specs.Packed.{tables_beside, listed_of};
ghost use Rattle.bh_check.specs.Awaits.{HasReached};
ghost use Rattle.bh_stored.specs.Fits.{AreAllFit};
ghost use Rattle.bh_stored.specs.Stored.{seen, AreStoredIn};
ghost use Rattle.bh_stored.specs.Stores.{KeepsTrees};
ghost use Rattle.bh_stored.specs.declared.stored.Edition.TheVariants.{Fifth};
ghost use Rattle.bh_check.specs.Blocks.{HasDigest, AreOnce, AreNamed, AreUses};
ghost use Rattle.bh_check.specs.Checked.{version_of, edition_with, IsHostRowIn, AreRowsHeld, AreDatesHeld, AreBodiesHeld};
ghost use Rattle.bh_check.specs.Checked.{IsChecked};
ghost use Rattle.bh_check.specs.Filled.{ReadsPacks};
ghost use Rattle.bh_check.specs.Garbage.{IsGarbage, AreWeighed};
ghost use Rattle.bh_check.specs.Holds.{block_refs, block_bytes, block_length, AreMeasures, AreTotals, Holds};
ghost use Rattle.bh_check.specs.Looked.{AreReadOf, AreShown};
ghost use Rattle.bh_check.specs.Lost.{is_of_bytes, IsReadable, AreLost, AreLostIn};
ghost use Rattle.bh_check.specs.Sums.{Keeps};
ghost use Rattle.bh_check.specs.Tallies.{AreTalliesOf, AreTallied};

use crate::blocks::first_again;
use crate::checksums::{Places, first_missummed};
use crate::filled::Known;
use crate::flaw::{Flaw, Stop};
use crate::garbage::{has_bytes, unused_bytes};
use crate::looked::{Looked, look};
use crate::lost::{Lost, lost_of};
use crate::measures::Measures;
use crate::placed::first_misplaced;
use crate::rows::{Table, is_host};
use crate::sums::Sums;
use crate::tallies::{EntryTotals, first_mistallied};
use crate::totals::Totals;
use crate::uses::first_miscounted;
use crate::watch::{Stage, Watch};
use bh_schema::host::Digester;
use bh_shelf::no_shelf::NoShelf;
use bh_shelf::shelf::Shelf;
use bh_stored::cells::number_in;
use bh_stored::stored::{Edition, Stored};
use sqlite::{Alter, Connection};
use sqlite_trees::error::StoreError;
use sqlite_trees::store::Store;
use sqlite_value::row::Row;
use std::alloc::Global;

/// The number of tables of a host of version 1.
const FIRST_TABLES: usize = 10;

/// The number of tables of a host of version 2.
const SECOND_TABLES: usize = 12;

/// The number of tables of a host of version 3.
const THIRD_TABLES: usize = 13;

/// The number of tables of a host of version 4.
const FOURTH_TABLES: usize = 19;

/// The edition of a host with this number of tables.
fn edition_with(tables: usize) -> Edition
    ensures { result ≡ edition_with tables }
{
    if FOURTH_TABLES < tables {
        Edition::Fifth
    } else if THIRD_TABLES < tables {
        Edition::Fourth
    } else if SECOND_TABLES < tables {
        Edition::Third
    } else if FIRST_TABLES < tables {
        Edition::Second
    } else {
        Edition::First
    }
}

/// The version in the row of a host of this edition.
fn version_of(edition: Edition) -> u64
    ensures { result ≡ version_of edition }
{
    match edition {
        Edition::First => 1,
        Edition::Second => 2,
        Edition::Third => 3,
        Edition::Fourth => 4,
        Edition::Fifth => 5,
    }
}

/// The last stamp in the only row of a host of this version.
fn check_host_row(rows: &[Row], version: u64) -> Result<u64, Stop>
    ensures { IfOk result (IsHostRowIn version rows.now) }
{
    match rows {
        [row] if is_host(row, version) => Ok(number_in(row, 3)),
        _ => Err(Stop::Flaw(Flaw::Host)),
    }
}

fn check_table(alloc: Global, measures: &Measures, table: Table, rows: &[Row]) -> Result<(), Stop>
    ensures { OnOk result ((d : Trees) → AreMeasures d measures.now → AllByRecursion (Holds d measures.now.latest table) rows.now) }
{
    match measures.first_unsound(alloc, table, rows)? {
        None => Ok(()),
        Some(row) => Err(Stop::Flaw(Flaw::Row(table, row))),
    }
}

/// Checks each row alone, and against the sums over the others.
fn check_tables(alloc: Global, measures: &Measures, stored: &Stored) -> Result<(), Stop>
    ensures { OnOk result ((d : Trees) → AreReadOf d stored.now → AreMeasures d measures.now → AreRowsHeld d measures.now.latest) }
{
    check_table(alloc, measures, Table::Tenants, &stored.tenants)?;
    check_table(alloc, measures, Table::Keys, &stored.keys)?;
    check_table(alloc, measures, Table::Buckets, &stored.buckets)?;
    check_table(alloc, measures, Table::Versions, &stored.versions)?;
    check_table(alloc, measures, Table::Refs, &stored.refs)?;
    check_table(alloc, measures, Table::Uploads, &stored.uploads)?;
    check_table(alloc, measures, Table::Parts, &stored.parts)
}

/// Checks locked buckets and their versions' dates.
fn check_dates(alloc: Global, measures: &Measures, stored: &Stored) -> Result<(), Stop>
    ensures { OnOk result ((d : Trees) → AreReadOf d stored.now → AreMeasures d measures.now → AreDatesHeld d measures.now.latest) }
{
    check_table(alloc, measures, Table::Locked, &stored.buckets)?;
    check_table(alloc, measures, Table::Dated, &stored.versions)?;
    check_table(alloc, measures, Table::Kept, &stored.versions)?;
    check_table(alloc, measures, Table::Retains, &stored.retains)
}

/// Checks each row alone, against the sums over the others, and against the rows that lock or date
/// it.
fn check_all_tables(alloc: Global, measures: &Measures, stored: &Stored) -> Result<(), Stop>
    ensures rows { OnOk result ((d : Trees) → AreReadOf d stored.now → AreMeasures d measures.now → AreRowsHeld d measures.now.latest) }
    ensures dates { OnOk result ((d : Trees) → AreReadOf d stored.now → AreMeasures d measures.now → AreDatesHeld d measures.now.latest) }
{
    check_tables(alloc, measures, stored)?;
    check_dates(alloc, measures, stored)
}

/// Checks the places of references, and the checksums of parts.
fn check_bodies<P: Shelf>(
    alloc: Global,
    packs: &mut P,
    known: &Known,
    stored: &Stored,
    totals: &Totals,
) -> Result<(), Stop>
    ensures bodies { OnOk result (IsTrue (P.Shelf.is_clean packs.new) → (d : Trees) → AreReadOf d stored.now
        → AreShown (P.Shelf.seen packs.old) stored.now known.now stored.now.blocks.items (d 10)
        → AreTotals d totals.now → AreBodiesHeld d) }
    ensures reads { ReadsPacks P.Shelf packs.old packs.new }
{
    if let Some(row) = first_misplaced(alloc, &stored.refs)? {
        return Err(Stop::Flaw(Flaw::Place(row)));
    }
    let places = Places::of(alloc, stored)?;
    match first_missummed(alloc, packs, known, stored, totals, &places)? {
        None => Ok(()),
        Some(row) => Err(Stop::Flaw(Flaw::Checksum(row))),
    }
}

/// Checks the number of references to each block.
fn check_uses(alloc: Global, stored: &Stored, totals: &Totals) -> Result<(), Stop>
    ensures { OnOk result ((d : Trees) → AreReadOf d stored.now → AreTotals d totals.now → AreUses (block_refs d) (d 23) (d 10)) }
{
    if stored.uses.len() != stored.blocks.len() {
        return Err(Stop::Flaw(Flaw::OtherUses));
    }
    match first_miscounted(alloc, &stored.uses, &stored.blocks, &totals.block_refs)? {
        None => Ok(()),
        Some(row) => Err(Stop::Flaw(Flaw::Uses(row))),
    }
}

/// Checks each tenant's numbers of versions, markers and objects.
fn check_each_tally(alloc: Global, stored: &Stored) -> Result<(), Stop>
    ensures { OnOk result ((d : Trees) → AreReadOf d stored.now → AreTalliesOf (d 7) (d 30) (d 1)) }
{
    if stored.tallies.len() != stored.tenants.len() {
        return Err(Stop::Flaw(Flaw::OtherTallies));
    }
    let totals = EntryTotals::of(alloc, &stored.versions)?;
    match first_mistallied(alloc, &stored.tallies, &stored.tenants, &totals)? {
        None => Ok(()),
        Some(row) => Err(Stop::Flaw(Flaw::Tally(row))),
    }
}

/// Checks the tallies, if a host of this edition has them.
fn check_tallies(alloc: Global, stored: &Stored, edition: Edition) -> Result<(), Stop>
    ensures { OnOk result ((d : Trees) → AreReadOf d stored.now → AreTallied edition d) }
{
    match edition {
        Edition::First => Ok(()),
        Edition::Second => Ok(()),
        Edition::Third => check_each_tally(alloc, stored),
        Edition::Fourth => check_each_tally(alloc, stored),
        Edition::Fifth => check_each_tally(alloc, stored),
    }
}

/// Checks the number of bytes of the blocks, of these lengths, that no reference names.
fn check_weight(stored: &Stored, lengths: &[u64]) -> Result<(), Stop>
    ensures { OnOk result ((d : Trees) → AreReadOf d stored.now → lengths.now ≡ map block_length (d 10)
        → IsGarbage (d 44) (d 23) (d 10)) }
{
    let bytes = unused_bytes(&stored.uses, lengths)?;
    if has_bytes(&stored.garbage, bytes) {
        Ok(())
    } else {
        Err(Stop::Flaw(Flaw::Garbage))
    }
}

/// Checks that number, if a host of this edition has it.
fn check_garbage(stored: &Stored, lengths: &[u64], edition: Edition) -> Result<(), Stop>
    ensures { OnOk result ((d : Trees) → AreReadOf d stored.now → lengths.now ≡ map block_length (d 10) → AreWeighed edition d) }
{
    match edition {
        Edition::First => Ok(()),
        Edition::Second => Ok(()),
        Edition::Third => Ok(()),
        Edition::Fourth => Ok(()),
        Edition::Fifth => check_weight(stored, lengths),
    }
}

/// Checks that no two blocks have equal bytes, provided that each has the digest of its bytes.
fn check_once<P: Shelf>(
    alloc: Global,
    packs: &mut P,
    known: &Known,
    stored: &Stored,
) -> Result<(), Stop>
    ensures once { OnOk result (IsTrue (P.Shelf.is_clean packs.new) → (shown : List Columns)
        → AreShown (P.Shelf.seen packs.old) stored.now known.now stored.now.blocks.items shown
        → (digest : Octets → Octets) → AllByRecursion (HasDigest digest) shown → AreOnce shown) }
    ensures reads { ReadsPacks P.Shelf packs.old packs.new }
{
    match first_again(alloc, packs, known, stored, &stored.blocks)? {
        None => Ok(()),
        Some(row) => Err(Stop::Flaw(Flaw::Again(row))),
    }
}

/// The sums against which rows are checked, of a host of this version, whose blocks have these lengths.
fn measures_of(
    alloc: Global,
    stored: &Stored,
    by_name: Sums,
    version: u64,
) -> Result<Measures, Stop>
    ensures host { IfOk result (λ m. IsHostRowIn version stored.now.host.items m.latest) }
    ensures totals { IfOk result (λ m. (d : Trees) → AreReadOf d stored.now → Keeps (block_bytes d) by_name → AreMeasures d m) }
{
    let latest = check_host_row(&stored.host, version)?;
    Ok(Measures {
        totals: Totals::of(alloc, stored, by_name)?,
        latest,
    })
}

/// Checks the number of references to each block, of each tenant's entries, and of the bytes that
/// nobody needs.
fn check_counts(
    alloc: Global,
    stored: &Stored,
    lengths: &[u64],
    totals: &Totals,
    edition: Edition,
) -> Result<(), Stop>
    ensures uses { OnOk result ((d : Trees) → AreReadOf d stored.now → AreTotals d totals.now → AreUses (block_refs d) (d 23) (d 10)) }
    ensures tallies { OnOk result ((d : Trees) → AreReadOf d stored.now → AreTallied edition d) }
    ensures garbage { OnOk result ((d : Trees) → AreReadOf d stored.now → lengths.now ≡ map block_length (d 10)
        → AreWeighed edition d) }
{
    check_uses(alloc, stored, totals)?;
    check_tallies(alloc, stored, edition)?;
    check_garbage(stored, lengths, edition)
}

/// Checks that no block has its bytes in a pack.
fn check_unplaced(stored: &Stored) -> Result<(), Stop>
    ensures { OnOk result (stored.now.places.items ≡ []) }
{
    match stored.places.first() {
        None => Ok(()),
        Some(row) => Err(Stop::Flaw(Flaw::Placed(number_in(row, 0)))),
    }
}

/// Checks all rows against one another, of blocks that were looked at.
fn check_looked<P: Shelf>(
    alloc: Global,
    packs: &mut P,
    known: &Known,
    stored: &Stored,
    looked: Looked,
    edition: Edition,
) -> Result<(), Stop>
    ensures checked { OnOk result (IsTrue (P.Shelf.is_clean packs.new) → (d : Trees) → AreReadOf d stored.now
        → AreShown (P.Shelf.seen packs.old) stored.now known.now stored.now.blocks.items (d 10) → AreAllFit d
        → Keeps (block_bytes d) looked.by_name → looked.lengths.items ≡ map block_length (d 10)
        → (digest : Octets → Octets) → AllByRecursion (HasDigest digest) (d 10) → IsChecked edition digest d) }
    ensures reads { ReadsPacks P.Shelf packs.old packs.new }
{
    let Looked { by_name, lengths } = looked;
    let measures = measures_of(alloc, stored, by_name, version_of(edition))?;
    check_all_tables(alloc, &measures, stored)?;
    check_bodies(alloc, packs, known, stored, &measures.totals)?;
    check_counts(alloc, stored, &lengths, &measures.totals, edition)?;
    check_once(alloc, packs, known, stored)?;
    Ok(())
}

/// All rows that were read, and the bytes that packs have of blocks. A few blocks are in memory at once.
fn check_stored<P: Shelf, D: Digester, W: Watch>(
    alloc: Global,
    packs: &mut P,
    stored: &Stored,
    edition: Edition,
    digester: &D,
    watch: &mut W,
) -> Result<(), Stop>
    ensures checked { OnOk result (IsTrue (P.Shelf.is_clean packs.new) → (d : Trees) → AreStoredIn d stored.now → AreAllFit d
        → AreNamed (d 34) → HasReached (P.Shelf.seen packs.old) (packs_in d) (places_in d)
        → IsChecked edition D.digest_of (filled_trees (P.Shelf.seen packs.old) d)) }
    ensures reads { ReadsPacks P.Shelf packs.old packs.new }
{
    let known = Known::of(alloc, &stored.places, &stored.packs)?;
    watch.at(Stage::Blocks(stored.blocks.len()));
    let looked = look(alloc, packs, &known, stored, digester)?;
    check_looked(alloc, packs, &known, stored, looked, edition)?;
    Ok(())
}

/// All rows of a store.
fn check_rows<S: Store, D: Digester, W: Watch>(
    alloc: Global,
    store: &mut S,
    edition: Edition,
    digester: &D,
    watch: &mut W,
) -> Result<(), Stop>
    ensures keeps { OnOk result (KeepsTrees (S.view store.old) (S.view store.new)) }
    ensures checked { OnOk result (IsClean (S.view store.new)
        → IsChecked edition D.digest_of (seen edition (S.view store.old).trees)) }
{
    let stored = Stored::read(alloc, store, edition)?;
    watch.at(Stage::Rows(stored.refs.len()));
    check_unplaced(&stored)?;
    check_stored(alloc, &mut NoShelf, &stored, edition, digester, watch)?;
    Ok(())
}

/// What a check found.
#[derive(Drop)]
pub struct Found {
    /// The first flaw.
    pub flaw: Flaw,
    /// What can't be read, if the first flaw is of a block's bytes and all rows were read.
    pub lost: Option<Lost>,
}

/// The first flaw in a store with the database of a host of this edition, if there is one. The
/// digester must be that of the function that names the host's blocks. Fails if memory or the store
/// fails.
pub fn check_store<S: Store, D: Digester, W: Watch>(
    alloc: Global,
    store: &mut S,
    edition: Edition,
    digester: &D,
    watch: &mut W,
) -> Result<Option<Found>, StoreError>
    ensures keeps { IfOk result (λ found. found ≡ None → KeepsTrees (S.view store.old) (S.view store.new)) }
    ensures checked { IfOk result (λ found. found ≡ None → IsClean (S.view store.new)
        → IsChecked edition D.digest_of (seen edition (S.view store.old).trees)) }
{
    match check_rows(alloc, store, edition, digester, watch) {
        Ok(()) => Ok(None),
        Err(Stop::Flaw(flaw)) => Ok(Some(Found { flaw, lost: None })),
        Err(Stop::Store(error)) => Err(error),
    }
}

/// A flaw, with what can't be read if it is of a block's bytes.
fn with_lost<P: Shelf, D: Digester>(
    alloc: Global,
    packs: &mut P,
    stored: &Stored,
    digester: &D,
    flaw: Flaw,
) -> Result<Found, Stop>
    ensures flaw { IfOk result (λ it. it.flaw ≡ flaw) }
    ensures listed { IfOk result (λ it. IsTrue (is_of_bytes flaw) → it.lost ≢ None) }
    ensures lost { IfOk result (λ it. IfSome it.lost (λ lost. IsTrue (P.Shelf.is_clean packs.new) → AreNamed stored.now.places.items
        → AreLost (IsReadable (typed pack_form stored.now.packs.items) (P.Shelf.seen packs.old)
        (typed place_form stored.now.places.items) D.digest_of) stored.now lost)) }
    ensures reads { ReadsPacks P.Shelf packs.old packs.new }
{
    if !flaw.is_of_bytes() {
        return Ok(Found { flaw, lost: None });
    }
    let lost = lost_of(alloc, packs, stored, digester)?;
    Ok(Found {
        flaw,
        lost: Some(lost),
    })
}

/// What is found in all rows of a store with the database of a host of the present version, whose blocks may have their bytes in packs.
fn check_filled<S: Store, P: Shelf, D: Digester, W: Watch>(
    alloc: Global,
    store: &mut S,
    packs: &mut P,
    digester: &D,
    watch: &mut W,
) -> Result<Option<Found>, Stop>
    ensures keeps { OnOk result (KeepsTrees (S.view store.old) (S.view store.new)) }
    ensures reads { ReadsPacks P.Shelf packs.old packs.new }
    ensures typed { OnOk result (IsClean (S.view store.new) → AreRows pack_form ((S.view store.old).trees 32)) }
    ensures checked { IfOk result (λ found. found ≡ None → IsClean (S.view store.new) → IsTrue (P.Shelf.is_clean packs.new)
        → IsDatabase (record { schema = host_schema; trees = (S.view store.old).trees })
        → HasReached (P.Shelf.seen packs.old) (packs_in (S.view store.old).trees) (places_in (S.view store.old).trees)
        → IsChecked Fifth D.digest_of (filled_trees (P.Shelf.seen packs.old) (S.view store.old).trees)) }
    ensures lost { IfOk result (λ found. IfSome found (λ it. IfSome it.lost (λ lost. IsClean (S.view store.new)
        → IsTrue (P.Shelf.is_clean packs.new) → IsDatabase (record { schema = host_schema; trees = (S.view store.old).trees })
        → AreLostIn (P.Shelf.seen packs.old) D.digest_of (S.view store.old).trees lost))) }
{
    let stored = Stored::read(alloc, store, Edition::Fifth)?;
    watch.at(Stage::Rows(stored.refs.len()));
    match check_stored(alloc, packs, &stored, Edition::Fifth, digester, watch) {
        Ok(()) => Ok(None),
        Err(Stop::Flaw(flaw)) => Ok(Some(with_lost(alloc, packs, &stored, digester, flaw)?)),
        Err(stop) => Err(stop),
    }
}

/// As `check_store`, for a host of the present version and its packs.
pub fn check_store_with<S: Store, P: Shelf, D: Digester, W: Watch>(
    alloc: Global,
    store: &mut S,
    packs: &mut P,
    digester: &D,
    watch: &mut W,
) -> Result<Option<Found>, StoreError>
    ensures keeps { IfOk result (λ found. found ≡ None → KeepsTrees (S.view store.old) (S.view store.new)) }
    ensures reads { ReadsPacks P.Shelf packs.old packs.new }
    ensures typed { IfOk result (λ found. found ≡ None → IsClean (S.view store.new) → AreRows pack_form ((S.view store.old).trees 32)) }
    ensures checked { IfOk result (λ found. found ≡ None → IsClean (S.view store.new) → IsTrue (P.Shelf.is_clean packs.new)
        → IsDatabase (record { schema = host_schema; trees = (S.view store.old).trees })
        → HasReached (P.Shelf.seen packs.old) (packs_in (S.view store.old).trees) (places_in (S.view store.old).trees)
        → IsChecked Fifth D.digest_of (filled_trees (P.Shelf.seen packs.old) (S.view store.old).trees)) }
    ensures lost { IfOk result (λ found. IfSome found (λ it. IfSome it.lost (λ lost. KeepsTrees (S.view store.old) (S.view store.new)
        × (IsClean (S.view store.new) → IsTrue (P.Shelf.is_clean packs.new)
        → IsDatabase (record { schema = host_schema; trees = (S.view store.old).trees })
        → AreLostIn (P.Shelf.seen packs.old) D.digest_of (S.view store.old).trees lost)))) }
{
    match check_filled(alloc, store, packs, digester, watch) {
        Ok(found) => Ok(found),
        Err(Stop::Flaw(first)) => Ok(Some(Found {
            flaw: first,
            lost: None,
        })),
        Err(Stop::Store(cause)) => Err(cause),
    }
}

/// Checks the committed database of a connection, and returns the store. A transaction that is open
/// is an error. A host of an earlier version is judged by the tables that it has once it is opened;
/// nothing is written.
pub fn check_connection<S: Alter + Drop, D: Digester, W: Watch>(
    alloc: Global,
    connection: Connection<S>,
    digester: &D,
    watch: &mut W,
) -> (Result<Option<Found>, StoreError>, S)
    requires schema { IsStateClean (state S.Store connection)
        → ((state S.Store connection).now.schema ≡ first_schema)
        ⊎ (((state S.Store connection).now.schema ≡ second_schema)
        ⊎ (((state S.Store connection).now.schema ≡ third_schema)
        ⊎ (((state S.Store connection).now.schema ≡ fourth_schema) ⊎ ((state S.Store connection).now.schema ≡ host_schema)))) }
    ensures sound { IfOk result.0 (λ found. found ≡ None → IsClean (S.Store.view result.1) → IsTrue (S.Store.view result.1).is_open
        → IsStateClean (state S.Store connection) × IsSoundHost D.digest_of (tables_opened (state S.Store connection).now)) }
{
    let tables = connection.schema().tables.len();
    let is_settled = connection.is_autocommit();
    let mut store = connection.into_store();
    if !is_settled {
        return (Err(StoreError::Broken), store);
    }
    watch.at(Stage::Reading(tables));
    let edition = edition_with(tables);
    let found = check_store(alloc, &mut store, edition, digester, watch);
    (found, store)
}

/// Checks the committed database of a connection to a host of the present version, and the bytes that
/// its packs have, and returns the store. A transaction that is open is an error. Nothing is written.
///
/// It reads all that packs have of blocks, and tells nothing of what no place names. Packs that were
/// opened by the rows of the host's table of packs have what it reads (clause `listed`). If the first
/// flaw is of a block's bytes, each version that isn't listed as lost is whole (clause `lost`).
pub fn check_with_packs<S: Alter + Drop, P: Shelf, D: Digester, W: Watch>(
    alloc: Global,
    connection: Connection<S>,
    packs: &mut P,
    digester: &D,
    watch: &mut W,
) -> (Result<Option<Found>, StoreError>, S)
    requires schema { IsStateClean (state S.Store connection) → (state S.Store connection).now.schema ≡ host_schema }
    ensures reads { ReadsPacks P.Shelf packs.old packs.new }
    ensures sound { IfOk result.0 (λ found. found ≡ None → IsClean (S.Store.view result.1) → IsTrue (S.Store.view result.1).is_open
        → IsTrue (P.Shelf.is_clean packs.new)
        → HasReached (P.Shelf.seen packs.old) (packs_in (state S.Store connection).now.trees)
        (places_in (state S.Store connection).now.trees)
        → IsStateClean (state S.Store connection)
        × IsSoundHost D.digest_of (tables_beside (P.Shelf.seen packs.old) (state S.Store connection).now)) }
    ensures listed { IfOk result.0 (λ found. found ≡ None → IsClean (S.Store.view result.1) → IsTrue (S.Store.view result.1).is_open
        → IsTrue (P.Shelf.is_clean packs.new)
        → (files : Contents) → (IsStateClean (state S.Store connection) → AreRows pack_form ((state S.Store connection).now.trees 32)
        → HasListed (map listed_of (packs_in (state S.Store connection).now.trees)) files (P.Shelf.seen packs.old))
        → IsStateClean (state S.Store connection)
        × IsSoundHost D.digest_of (tables_beside (P.Shelf.seen packs.old) (state S.Store connection).now)) }
    ensures lost { IfOk result.0 (λ found. IfSome found (λ it. IfSome it.lost (λ lost. IsClean (S.Store.view result.1)
        → IsTrue (S.Store.view result.1).is_open → IsTrue (P.Shelf.is_clean packs.new) → IsStateClean (state S.Store connection)
        × AreLostIn (P.Shelf.seen packs.old) D.digest_of (state S.Store connection).now.trees lost))) }
{
    let tables = connection.schema().tables.len();
    let is_settled = connection.is_autocommit();
    let mut store = connection.into_store();
    if !is_settled {
        return (Err(StoreError::Broken), store);
    }
    watch.at(Stage::Reading(tables));
    let found = check_store_with(alloc, &mut store, packs, digester, watch);
    (found, store)
}
