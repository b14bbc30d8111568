//! The columns of a stored row.

ghost use Rattle.std.specs.Prelude.{◌≡◌, ◌≤◌, length, drop};
ghost use Rattle.sqlite.specs.Order.{column};
ghost use Rattle.sqlite_value.specs.Value.{owned};
ghost use Rattle.sqlite_typed.specs.Columns.{bytes_of};
ghost use Rattle.sqlite_trees.specs.View.{is_int};
ghost use Rattle.bh_tables.specs.Typed.{column_number, maybe_number};
ghost use Rattle.bh_stored.specs.Cells.{suits, are_suited, is_fit};

use sqlite_value::row::Row;
use sqlite_value::value::ValueRef;

/// The kind of a column's values.
#[derive(Clone, Copy)]
pub enum Kind {
    /// NULL: the column's value is the row's number.
    Key,
    Text,
    Blob,
    /// An integer from 0 on.
    Number,
    /// Any integer.
    Whole,
    /// An integer from 0 on, or NULL.
    MaybeNumber,
}

fn is_null(value: ValueRef<'_>) -> bool
    ensures { result ≡ suits Kind.Key (owned value.entry) }
{
    matches!(value, ValueRef::Null)
}

fn is_text(value: ValueRef<'_>) -> bool
    ensures { result ≡ suits Kind.Text (owned value.entry) }
{
    matches!(value, ValueRef::Text(_))
}

fn is_blob(value: ValueRef<'_>) -> bool
    ensures { result ≡ suits Kind.Blob (owned value.entry) }
{
    matches!(value, ValueRef::Blob(_))
}

fn is_number(value: ValueRef<'_>) -> bool
    ensures { result ≡ suits Kind.Number (owned value.entry) }
{
    match value {
        ValueRef::Int(n) => 0 <= n,
        _ => false,
    }
}

fn is_whole(value: ValueRef<'_>) -> bool
    ensures int { result ≡ is_int (owned value.entry) }
    ensures whole { result ≡ suits Kind.Whole (owned value.entry) }
{
    matches!(value, ValueRef::Int(_))
}

impl Kind {
    /// Whether a value is of the kind.
    fn suits(self, value: ValueRef<'_>) -> bool
        ensures { result ≡ suits self (owned value.entry) }
    {
        match self {
            Kind::Key => is_null(value),
            Kind::Text => is_text(value),
            Kind::Blob => is_blob(value),
            Kind::Number => is_number(value),
            Kind::Whole => is_whole(value),
            Kind::MaybeNumber => is_null(value) || is_number(value),
        }
    }
}

#[tactic(auto, using(crate::proofs::Suited::suited_next, crate::proofs::Suited::suited_past))]
/// Whether the columns from a place on are one of each kind.
fn are_suited(kinds: &[Kind], row: &Row, at: usize) -> bool
    requires { at ≤ length row.now }
    ensures { result ≡ are_suited kinds.now (drop at row.now) }
{
    match kinds {
        [] => at == row.len(),
        [kind, rest @ ..] => {
            at < row.len() && kind.suits(row.get(at)) && are_suited(rest, row, at + 1)
        }
    }
}

/// Whether a row has a number, and columns of these kinds.
pub fn is_fit(kinds: &[Kind], row: &Row) -> bool
    ensures { result ≡ is_fit kinds.now row.now }
{
    0 < row.len() && is_whole(row.get(0)) && are_suited(kinds, row, 1)
}

/// The bytes of a text or a blob; empty for another value.
pub fn bytes_in(row: &Row, at: usize) -> &[u8]
    ensures { result.now ≡ bytes_of (column row.now at) }
{
    match row.get(at) {
        ValueRef::Text(text) => text,
        ValueRef::Blob(blob) => blob,
        _ => &[],
    }
}

/// The number, without its sign; 0 for another value.
pub fn number_in(row: &Row, at: usize) -> u64
    ensures { result ≡ column_number (column row.now at) }
{
    match row.get(at) {
        ValueRef::Int(n) => n.unsigned_abs(),
        _ => 0,
    }
}

/// The number without its sign; `None` for another value.
pub fn maybe_number_in(row: &Row, at: usize) -> Option<u64>
    ensures { result ≡ maybe_number (column row.now at) }
{
    match row.get(at) {
        ValueRef::Int(n) => Some(n.unsigned_abs()),
        _ => None,
    }
}
