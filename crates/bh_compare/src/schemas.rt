ghost use Rattle.std.specs.Prelude.{◌≡◌, ◌↔◌, IsTrue};

use crate::parts::Same;
use sqlite_schema::schema::{Index, Schema, Stamps, Table, View};
use sqlite_value::keys::Order;
use sqlite_value::value::Bytes;

impl Same for Order {
    fn is_same(&self, other: &Order) -> bool {
        *self == *other
    }
}

impl Same for Stamps {
    fn is_same(&self, other: &Stamps) -> bool {
        self.places.is_same(&other.places)
            && self.terms.is_same(&other.terms)
            && self.formats.is_same(&other.formats)
    }
}

/// Whether two tables have the same name, tree and columns.
fn same_columns(left: &Table, right: &Table) -> bool
    ensures { IsTrue result ↔ ((left.now.name ≡ right.now.name) × (left.now.tree ≡ right.now.tree)
        × (left.now.columns ≡ right.now.columns) × (left.now.is_counted ≡ right.now.is_counted)) }
{
    left.name.is_same(&right.name)
        && left.tree == right.tree
        && left.columns.is_same(&right.columns)
        && left.is_counted == right.is_counted
}

/// Whether they have the same keys.
fn same_keys(left: &Table, right: &Table) -> bool
    ensures { IsTrue result ↔ ((left.now.key ≡ right.now.key) × (left.now.primary ≡ right.now.primary)
        × (left.now.uniques ≡ right.now.uniques) × (left.now.orders ≡ right.now.orders)) }
{
    left.key == right.key
        && left.primary.is_same(&right.primary)
        && left.uniques.is_same(&right.uniques)
        && left.orders.is_same(&right.orders)
}

/// Whether they have the same rules and defaults.
fn same_rules(left: &Table, right: &Table) -> bool
    ensures { IsTrue result ↔ ((left.now.checks ≡ right.now.checks) × (left.now.references ≡ right.now.references)
        × (left.now.computed ≡ right.now.computed) × (left.now.stamps ≡ right.now.stamps)) }
{
    left.checks.is_same(&right.checks)
        && left.references.is_same(&right.references)
        && left.computed.is_same(&right.computed)
        && left.stamps.is_same(&right.stamps)
}

impl Same for Table {
    fn is_same(&self, other: &Table) -> bool {
        same_columns(self, other) && same_keys(self, other) && same_rules(self, other)
    }
}

impl Same for Index {
    fn is_same(&self, other: &Index) -> bool {
        self.name.is_same(&other.name)
            && self.tree == other.tree
            && self.table == other.table
            && self.columns.is_same(&other.columns)
            && self.order == other.order
            && self.is_unique == other.is_unique
    }
}

fn same_owner(left: &Option<Bytes>, right: &Option<Bytes>) -> bool
    ensures { IsTrue result ↔ (left.now ≡ right.now) }
{
    match (left, right) {
        (Some(name), Some(other)) => name.is_same(other),
        (None, None) => true,
        (Some(_), None) | (None, Some(_)) => false,
    }
}

impl Same for View {
    fn is_same(&self, other: &View) -> bool {
        self.name.is_same(&other.name)
            && self.tree == other.tree
            && self.sql.is_same(&other.sql)
            && same_owner(&self.foreign, &other.foreign)
            && self.binds == other.binds
            && self.is_bound == other.is_bound
    }
}

/// Whether two schemas are equal: the same tables, indexes and views, in the same order and in the
/// same trees.
pub fn same_schema(left: &Schema, right: &Schema) -> bool
    ensures { IsTrue result ↔ (left.now ≡ right.now) }
{
    left.tables.is_same(&right.tables)
        && left.indexes.is_same(&right.indexes)
        && left.views.is_same(&right.views)
}
