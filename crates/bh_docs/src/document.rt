//! The building blocks of documents.

ghost use Rattle.std.specs.Prelude.{◌≡◌, ◌≤◌, false, map, option_map, Some, IfOk};
ghost use Rattle.std.specs.String.{string_bytes};
ghost use Rattle.serde_json.specs.Data.{Data, put, depth};
ghost use Rattle.serde_json.specs.Read.{max_depth};
ghost use Rattle.serde_json.specs.View.{view, members_view};
ghost use Rattle.serde_json.specs.Written.{compact_text, has_float};
ghost use Rattle.bh_docs.specs.Documents as spec;
ghost use Rattle.bh_docs.specs.Members.{shown_data, object_of as object_of_members};
ghost use Rattle.bh_docs.specs.Shapes.{data_of};

use bh_types::id::{UploadId, VersionId};
use bh_types::moment::{Moment, moment_text};
use bh_types::token::token_text;
use serde_json::{Map, Value};
use std::alloc::{AllocError, Global};

/// An entry of a list in a document.
pub trait Listed {
    /// The entry as data.
    ghost shown: { Self → Data };

    fn value(&self, alloc: Global) -> Result<Value, AllocError>
        ensures { IfOk result (λ value. view value ≡ shown self.now) };
}

fn values_of<E: Listed>(alloc: Global, entries: &[E]) -> Result<Vec<Value>, AllocError>
    ensures { IfOk result (λ values. map view values.items ≡ map E.shown entries.now) }
{
    let mut values = Vec::with_capacity(alloc, entries.len())?;
    for entry in entries {
        values.push(entry.value(alloc)?)?;
    }
    Ok(values)
}

/// The compact text of a document without floats.
pub fn print(alloc: Global, document: &Value) -> Result<String, AllocError>
    requires { has_float (view document.now) ≡ false }
    ensures text { IfOk result (λ text. string_bytes text ≡ compact_text (view document.now)) }
    ensures reads_back { IfOk result (λ text. depth (view document.now) ≤ max_depth
        → data_of (string_bytes text) ≡ Some (view document.now)) }
{
    document.to_string(alloc)
}

/// The value of a member.
#[derive(Clone, Copy)]
pub enum Shown<'a> {
    /// No value: the member is left out.
    Nothing,
    Text(&'a str),
    Count(u64),
    Flag(bool),
    At(Moment),
    Version(VersionId),
    Upload(UploadId),
    /// The continuation token of a name.
    Token(&'a str),
}

fn shown_value(alloc: Global, shown: &Shown<'_>) -> Result<Option<Value>, AllocError>
    ensures { IfOk result (λ value. option_map (λ v. view v) value ≡ shown_data shown.now) }
{
    match shown {
        Shown::Nothing => Ok(None),
        Shown::Text(text) => Ok(Some(Value::try_from_str(alloc, text)?)),
        Shown::Count(count) => Ok(Some(Value::from(*count))),
        Shown::Flag(flag) => Ok(Some(Value::from(*flag))),
        Shown::At(moment) => Ok(Some(Value::from(moment_text(alloc, *moment)?))),
        Shown::Version(id) => Ok(Some(Value::from(id.print(alloc)?))),
        Shown::Upload(id) => Ok(Some(Value::from(id.print(alloc)?))),
        Shown::Token(name) => Ok(Some(Value::from(token_text(alloc, name.as_bytes())?))),
    }
}

/// An object with these members, each with its name.
pub fn object_of(alloc: Global, members: &[(&str, Shown<'_>)]) -> Result<Value, AllocError>
    ensures { IfOk result (λ value. view value ≡ object_of_members members.now) }
{
    let mut document = Value::Object(Map::new(alloc));
    for member in members {
        document = with_shown(alloc, document, member.0, &member.1)?;
    }
    Ok(document)
}

/// An object with one more member, if the member has a value.
pub fn with_shown(
    alloc: Global,
    document: Value,
    name: &str,
    shown: &Shown<'_>,
) -> Result<Value, AllocError>
    ensures { IfOk result (λ whole. view whole
        ≡ spec.with_member name.now (shown_data shown.now) (view document)) }
{
    let value = shown_value(alloc, shown)?;
    with_member(alloc, document, name, value)
}

/// An object with one more member, the entries as an array.
pub fn with_entries<E: Listed>(
    alloc: Global,
    document: Value,
    name: &str,
    entries: &[E],
) -> Result<Value, AllocError>
    ensures { IfOk result (λ whole. view whole
        ≡ spec.with_member name.now (Some (spec.array_of E.shown entries.now)) (view document)) }
{
    let entries = Value::Array(values_of(alloc, entries)?);
    with_member(alloc, document, name, Some(entries))
}

/// An object with one more member, if it has a value.
pub fn with_member(
    alloc: Global,
    document: Value,
    name: &str,
    value: Option<Value>,
) -> Result<Value, AllocError>
    ensures { IfOk result (λ whole. view whole
        ≡ spec.with_member name.now (option_map (λ v. view v) value) (view document)) }
{
    let Some(value) = value else {
        return Ok(document);
    };
    match document {
        Value::Object(members) => Ok(Value::Object(with_entry(alloc, members, name, value)?)),
        other => Ok(other),
    }
}

fn with_entry(
    alloc: Global,
    mut members: Map<String, Value>,
    name: &str,
    value: Value,
) -> Result<Map<String, Value>, AllocError>
    ensures { IfOk result (λ whole. members_view whole.entries
        ≡ put name.now (view value) (members_view members.entries)) }
{
    let name = String::from_str(alloc, name)?;
    drop(members.insert(name, value)?);
    Ok(members)
}
