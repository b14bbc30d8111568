ghost use Rattle.std.specs.Prelude.{◌≡◌, ◌↔◌, IsTrue};

use sqlite_items::Items;
use sqlite_schema::code::lend_value;
use sqlite_schema::schema::{Column, Reference};
use sqlite_value::order;
use sqlite_value::value::Bytes;

/// Values that can be compared for equality.
pub trait Same {
    fn is_same(&self, other: &Self) -> bool
        ensures { IsTrue result ↔ (self.now ≡ other.now) };
}

pub fn same_all<T: Same>(left: &[T], right: &[T]) -> bool
    ensures { IsTrue result ↔ (left.now ≡ right.now) }
{
    if left.len() != right.len() {
        return false;
    }
    for at in 0..left.len() {
        if !left[at].is_same(&right[at]) {
            return false;
        }
    }
    true
}

impl Same for usize {
    fn is_same(&self, other: &usize) -> bool {
        *self == *other
    }
}

impl Same for Bytes {
    fn is_same(&self, other: &Bytes) -> bool {
        self.as_slice() == other.as_slice()
    }
}

impl<T: Same> Same for Items<T> {
    fn is_same(&self, other: &Items<T>) -> bool {
        same_all(self.as_slice(), other.as_slice())
    }
}

impl Same for Column {
    fn is_same(&self, other: &Column) -> bool {
        self.name.is_same(&other.name)
            && self.kind == other.kind
            && self.is_strict == other.is_strict
            && self.not_null == other.not_null
            && order::is_same(lend_value(&self.default), lend_value(&other.default))
            && self.collation == other.collation
    }
}

impl Same for Reference {
    fn is_same(&self, other: &Reference) -> bool {
        self.columns.is_same(&other.columns)
            && self.parent.is_same(&other.parent)
            && self.parent_columns.is_same(&other.parent_columns)
            && self.on_delete == other.on_delete
            && self.on_update == other.on_update
            && self.is_deferred == other.is_deferred
    }
}
