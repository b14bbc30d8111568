//! Gathers a page row by row.

ghost use Rattle.std.specs.Prelude.{◌≡◌, true, Some, None, [], ◌∷◌, ◌++◌, map, OnOk, IfOk, option_map};
ghost use Rattle.std.specs.List.{AllByRecursion};
ghost use Rattle.bh_model.specs.Pages.{ObjectItem, Listed.Single, Listed.Common, is_name, begins, after_name};
ghost use Rattle.bh_pages.specs.Gathered.{with_entry, start_of};
ghost use Rattle.bh_pages.specs.Seen.{gathered_by, seen, seen_line, seen_object, object_in, token_of, item_added, row_added, rows_added};
ghost use Rattle.bh_pages.specs.Seen.{read_on};

use crate::names::name_end;
use std::alloc::{AllocError, Global};
use std::cmp::Ordering;

/// A request for a page.
#[derive(Drop)]
pub struct PageAsked<'a> {
    pub prefix: &'a [u8],
    pub delimiter: &'a [u8],
    /// The name after which the page begins.
    pub after: Option<&'a [u8]>,
    /// The maximum number of entries on the page.
    pub max: u32,
}

/// A version or a delete marker of a key.
#[derive(Drop)]
pub struct Line {
    pub key: Vec<u8>,
    /// 0 for a version.
    pub marker: u64,
    pub stamp: u64,
    pub size: u64,
    pub checksum: String,
}

/// An object in a listing.
#[derive(Drop)]
pub struct ObjectLine {
    pub key: Vec<u8>,
    pub stamp: u64,
    pub size: u64,
    pub checksum: String,
}

/// An entry of a listing that is not a grouped name.
pub trait Single {
    ghost Item: { Type 0 };

    /// Its spec value.
    ghost seen: { Self → Item };
}

impl Single for ObjectLine {
    ghost Item = { ObjectItem };

    ghost seen = { seen_object };
}

/// An entry of a listing, or a grouped name.
#[derive(Drop)]
pub enum Listed<T> {
    Single(T),
    Common(Vec<u8>),
}

/// The entries of a page so far.
#[derive(Drop)]
pub struct Gathering<T> {
    /// The key of the row before, if it matters.
    pub key: Option<Vec<u8>>,
    /// The grouped name that was listed last, if nothing was listed since.
    pub name: Option<Vec<u8>>,
    pub entries: Vec<Listed<T>>,
}

/// Whether a text is this one.
pub fn is_text(text: &Option<Vec<u8>>, other: &[u8]) -> bool
    ensures { result ≡ is_name other.now (option_map (λ t. t.items) text.now) }
{
    match text {
        None => false,
        Some(text) => matches!(text.as_slice().cmp(other), Ordering::Equal),
    }
}

/// A text with one more byte.
pub fn past(alloc: Global, text: &[u8], byte: u8) -> Result<Vec<u8>, AllocError>
    ensures { IfOk result (λ past. past.items ≡ text.now ++ byte ∷ []) }
{
    let mut past = Vec::from_slice(alloc, text)?;
    past.push(byte)?;
    Ok(past)
}

impl PageAsked<'_> {
    /// Whether the page may list this name.
    pub fn is_past(&self, name: &[u8]) -> bool
        ensures { result ≡ after_name (λ n. n) (token_of self.now) (Common name.now) }
    {
        match self.after {
            None => true,
            Some(marker) => matches!(marker.cmp(name), Ordering::Less),
        }
    }
}

impl PageAsked<'_> {
    /// The position at which reading begins.
    pub fn start(&self, alloc: Global) -> Result<Vec<u8>, AllocError>
        ensures { IfOk result (λ start. start.items ≡ start_of self.now.prefix.now (token_of self.now)) }
    {
        match self.after {
            None => Vec::from_slice(alloc, self.prefix),
            Some(marker) => {
                if matches!(self.prefix.cmp(marker), Ordering::Greater) {
                    Vec::from_slice(alloc, self.prefix)
                } else {
                    past(alloc, marker, 0)
                }
            }
        }
    }
}

impl<T: Single + Drop> Gathering<T> {
    /// A page without entries, after rows of this key, if it matters.
    pub fn new(alloc: Global, key: Option<Vec<u8>>) -> Gathering<T>
        ensures { gathered_by T.seen result ≡ record { key = option_map (λ k. k.items) key; name = None; entries = [] } }
    {
        Gathering {
            key,
            name: None,
            entries: Vec::new(alloc),
        }
    }

    /// Lists an entry that is not a grouped name.
    pub fn list_single(&mut self, single: T) -> Result<(), AllocError>
        ensures { OnOk result (gathered_by T.seen self.new ≡ with_entry (gathered_by T.seen self.old) (Single (T.seen single))) }
    {
        self.name = None;
        self.entries.push(Listed::Single(single))?;
        Ok(())
    }

    /// Lists a grouped name, unless it was the last.
    pub fn list_name(&mut self, alloc: Global, name: &[u8]) -> Result<(), AllocError>
        ensures { OnOk result (gathered_by T.seen self.new ≡ with_entry (gathered_by T.seen self.old) (Common name.now)) }
    {
        if is_text(&self.name, name) {
            return Ok(());
        }
        self.name = Some(Vec::from_slice(alloc, name)?);
        let listed = Vec::from_slice(alloc, name)?;
        self.entries.push(Listed::Common(listed))?;
        Ok(())
    }
}

impl Gathering<ObjectLine> {
    /// Lists an object with a key under the prefix, or the key's grouped name, if the page may have
    /// it.
    pub fn add_item(
        &mut self,
        alloc: Global,
        asked: &PageAsked<'_>,
        line: &Line,
    ) -> Result<(), AllocError>
        ensures { begins asked.now.prefix.now line.now.key.items ≡ true
            → OnOk result (seen self.new ≡ item_added asked.now (seen self.old) (Some (object_in line.now))) }
    {
        match name_end(asked.prefix, asked.delimiter, line.key.as_slice()) {
            None => {
                if !asked.is_past(line.key.as_slice()) {
                    return Ok(());
                }
                self.list_single(ObjectLine {
                    key: Vec::from_slice(alloc, line.key.as_slice())?,
                    stamp: line.stamp,
                    size: line.size,
                    checksum: line.checksum.clone()?,
                })
            }
            Some(end) => {
                let name = &line.key[..end];
                if !asked.is_past(name) {
                    return Ok(());
                }
                self.list_name(alloc, name)
            }
        }
    }

    /// Adds a row, whose key is under the prefix.
    pub fn add(
        &mut self,
        alloc: Global,
        asked: &PageAsked<'_>,
        line: &Line,
    ) -> Result<(), AllocError>
        ensures { begins asked.now.prefix.now line.now.key.items ≡ true
            → OnOk result (seen self.new ≡ row_added asked.now (seen self.old) (seen_line line.now)) }
    {
        if is_text(&self.key, line.key.as_slice()) {
            return Ok(());
        }
        self.key = Some(Vec::from_slice(alloc, line.key.as_slice())?);
        if line.marker != 0 {
            return Ok(());
        }
        self.add_item(alloc, asked, line)
    }

    /// Adds the rows in turn, until the page is full.
    pub fn add_all(
        &mut self,
        alloc: Global,
        asked: &PageAsked<'_>,
        lines: &[Line],
    ) -> Result<(), AllocError>
        ensures { AllByRecursion (λ l. begins asked.now.prefix.now l.key.items ≡ true) lines.now
            → OnOk result (seen self.new ≡ rows_added asked.now (seen self.old) (map seen_line lines.now)) }
    {
        for line in lines {
            if self.entries.len() > asked.max as usize {
                return Ok(());
            }
            self.add(alloc, asked, line)?;
        }
        Ok(())
    }

    /// The position at which to read on, after a row with this key.
    pub fn place(
        &self,
        alloc: Global,
        asked: &PageAsked<'_>,
        key: &[u8],
    ) -> Result<Vec<u8>, AllocError>
        ensures { begins asked.now.prefix.now key.now ≡ true
            → IfOk result (λ place. place.items ≡ read_on asked.now (seen self.now) key.now) }
    {
        match name_end(asked.prefix, asked.delimiter, key) {
            None => past(alloc, key, 0),
            Some(end) => {
                let name = &key[..end];
                if is_text(&self.name, name) || !asked.is_past(name) {
                    past(alloc, name, 255)
                } else {
                    past(alloc, key, 0)
                }
            }
        }
    }
}
