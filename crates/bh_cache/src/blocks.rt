//! A cache of blocks, beside their rows: at most a fixed number of blocks and of bytes, the ones used
//! last.

ghost use Rattle.std.specs.Prelude.{◌≡◌, ◌≢◌, ◌⊎◌, ◌≤◌, ◌+◌, Some, length, Contains, IfSome, IsTrue};
ghost use Rattle.bh_tables.specs.Schema.{Octets};
ghost use Rattle.bh_tables.specs.Shown.{Name};
ghost use Rattle.bh_cache.specs.Kept.{no_blocks, bytes_in, room_of, entries_in};
ghost use Rattle.bh_cache.specs.Names.{name_of};

use bh_types::limits::Tuning;
use lru::LruCache;
use std::alloc::Global;
use std::marker::Model;
use std::num::NonZeroUsize;

/// A block's name: the digest of its bytes, and its ordinal among the blocks of that digest.
#[derive(Clone, Copy, PartialEq, Eq, Hash)]
pub struct BlockName {
    pub digest: [u8; 32],
    pub ord: u64,
}

impl BlockName {
    /// The name in these columns, if the digest has 32 bytes, as every block's does.
    pub fn new(digest: &[u8], ord: u64) -> Option<BlockName>
        ensures { IfSome result (λ name. name_of name ≡ (digest.now, ord)) }
    {
        match <[u8; 32]>::try_from(digest) {
            Ok(digest) => Some(BlockName { digest, ord }),
            Err(_) => None,
        }
    }
}

/// A process's settings, and its cached blocks.
#[derive(Drop)]
pub struct BlockCache {
    tuning: Tuning,
    /// `None` before the first block is cached.
    blocks: Option<LruCache<BlockName, Vec<u8>>>,
    /// The bytes of all cached blocks.
    bytes: u64,
    /// How often a block was read here, and how often from its row, since the process began.
    hits: u64,
    misses: u64,
}

impl Model for BlockCache {
    ghost use Rattle.std.specs.Prelude.{◌≡◌, IfSome};
    ghost use Rattle.std.specs.Prelude.{◌≤◌};
    ghost use Rattle.bh_cache.specs.Kept.{KeptBlocks, entries_in, bytes_in, room_of};

    ghost Value = { KeptBlocks };

    ghost use Rattle.bh_cache.specs.Names.{name_of};

    ghost view = { λ c. record { tuning = c.tuning; entries = entries_in name_of (λ v. v.items) c.blocks } };

    ghost invariant = { λ c. IfSome c.blocks (λ b. b.cap ≡ c.tuning.cache_blocks)
        × (bytes_in (entries_in name_of (λ v. v.items) c.blocks) ≡ c.bytes) × (c.bytes ≤ room_of c.tuning) };
}

fn copy_of(alloc: Global, bytes: &[u8]) -> Option<Vec<u8>>
    ensures { IfSome result (λ copy. copy.items ≡ bytes.now) }
{
    let mut copy = Vec::new(alloc);
    match copy.extend_from_slice(bytes) {
        Ok(()) => Some(copy),
        Err(_) => None,
    }
}

/// The maximum bytes of a process's cache: `cache_blocks` blocks of `block_size` bytes.
fn room_of(tuning: Tuning) -> u64
    ensures { result ≡ room_of tuning }
{
    tuning.block_size * tuning.cache_blocks
}

/// Removes a block, if it is cached. Returns its size in bytes, or 0.
fn drop_named(kept: &mut LruCache<BlockName, Vec<u8>>, name: &BlockName) -> u64
    ensures cap { kept.new.cap ≡ kept.old.cap }
    ensures bytes { bytes_in (entries_in name_of (λ v. v.items) (Some kept.old))
        ≡ result + bytes_in (entries_in name_of (λ v. v.items) (Some kept.new)) }
    ensures entries { (e : Name × Octets) → Contains (entries_in name_of (λ v. v.items) (Some kept.new)) e
        → Contains (entries_in name_of (λ v. v.items) (Some kept.old)) e × (e.0 ≢ name_of name.now) }
{
    // Called for its contract: no name occurs twice.
    let _count = kept.len();
    match kept.pop(name) {
        Some(bytes) => bytes.len() as u64,
        None => 0,
    }
}

/// Removes the least recently used block, if there is one. Returns its size in bytes, or 0.
fn drop_last(kept: &mut LruCache<BlockName, Vec<u8>>) -> u64
    ensures cap { kept.new.cap ≡ kept.old.cap }
    ensures bytes { bytes_in (entries_in name_of (λ v. v.items) (Some kept.old))
        ≡ result + bytes_in (entries_in name_of (λ v. v.items) (Some kept.new)) }
    ensures entries { (e : Name × Octets) → Contains (entries_in name_of (λ v. v.items) (Some kept.new)) e
        → Contains (entries_in name_of (λ v. v.items) (Some kept.old)) e }
{
    match kept.pop_lru() {
        Some((_, bytes)) => bytes.len() as u64,
        None => 0,
    }
}

/// Adds a block. Returns its size in bytes, or 0 if it wasn't added: it is cached already, the cache
/// is full, or there is no memory for it.
fn add(kept: &mut LruCache<BlockName, Vec<u8>>, name: BlockName, bytes: Vec<u8>) -> u64
    ensures cap { kept.new.cap ≡ kept.old.cap }
    ensures most { result ≤ length bytes.items }
    ensures bytes { bytes_in (entries_in name_of (λ v. v.items) (Some kept.new))
        ≡ result + bytes_in (entries_in name_of (λ v. v.items) (Some kept.old)) }
    ensures entries { (e : Name × Octets) → Contains (entries_in name_of (λ v. v.items) (Some kept.new)) e
        → Contains (entries_in name_of (λ v. v.items) (Some kept.old)) e ⊎ (e ≡ (name_of name, bytes.items)) }
{
    if kept.len() >= kept.cap().get() || kept.contains(&name) {
        return 0;
    }
    let size = bytes.len() as u64;
    match kept.put(name, bytes) {
        Ok(_) => size,
        Err(_) => 0,
    }
}

impl BlockCache {
    /// An empty cache.
    pub fn new(tuning: Tuning) -> BlockCache
        ensures { result ≡ no_blocks tuning }
    {
        BlockCache {
            tuning,
            blocks: None,
            bytes: 0,
            hits: 0,
            misses: 0,
        }
    }

    /// The process's settings.
    pub fn tuning(&self) -> Tuning
        ensures { result ≡ self.now.tuning }
    {
        self.tuning
    }

    /// How many blocks are cached, at most the process's `cache_blocks`.
    pub fn cached(&self) -> usize
        ensures counted { result ≡ length self.now.entries }
        ensures bounded { result ≤ self.now.tuning.cache_blocks }
    {
        match &self.blocks {
            Some(kept) => kept.len(),
            None => 0,
        }
    }

    /// The bytes of all cached blocks: at most `cache_blocks` times `block_size`, of the process's
    /// settings.
    pub fn bytes(&self) -> u64
        ensures counted { result ≡ bytes_in self.now.entries }
        ensures bounded { result ≤ room_of self.now.tuning }
    {
        self.bytes
    }

    /// How many blocks were read here since the cache was made. Nothing depends on it.
    pub fn hits(&self) -> u64 {
        self.hits
    }

    /// How many blocks were read from their rows, of those that fit in the cache.
    pub fn misses(&self) -> u64 {
        self.misses
    }

    /// The bytes of a block, if it is cached.
    pub fn kept(&self, name: &BlockName) -> Option<&[u8]>
        ensures { IfSome result (λ bytes. Contains self.now.entries (name_of name.now, bytes.now)) }
    {
        match &self.blocks {
            Some(kept) => match kept.peek(name) {
                Some(bytes) => Some(bytes.as_slice()),
                None => None,
            },
            None => None,
        }
    }

    /// Marks a block as used: of those that are cached, it is removed last.
    pub fn touch(&mut self, name: &BlockName)
        ensures tuning { self.new.tuning ≡ self.old.tuning }
        ensures entries { (e : Name × Octets) → Contains self.new.entries e → Contains self.old.entries e }
    {
        self.hits = self.hits.saturating_add(1);
        if let Some(kept) = &mut self.blocks {
            kept.promote(name);
        }
    }

    /// Caches the bytes of a block, if there is memory for them. A block larger than the whole cache
    /// isn't cached.
    pub fn keep(&mut self, alloc: Global, name: BlockName, bytes: &[u8])
        ensures tuning { self.new.tuning ≡ self.old.tuning }
        ensures entries { (e : Name × Octets) → Contains self.new.entries e
            → Contains self.old.entries e ⊎ (e ≡ (name_of name, bytes.now)) }
    {
        if bytes.len() as u64 > room_of(self.tuning) {
            return;
        }
        self.make_room(alloc);
        if let Some(copy) = copy_of(alloc, bytes) {
            self.let_go(copy.len() as u64);
            self.put(name, copy);
        }
    }

    /// Counts a block that was read from its row, and makes the list of blocks before the first one.
    fn make_room(&mut self, alloc: Global)
        ensures { self.new ≡ self.old }
    {
        self.misses = self.misses.saturating_add(1);
        if self.blocks.is_some() {
            return;
        }
        if let Some(most) = NonZeroUsize::new(self.tuning.cache_blocks as usize) {
            self.blocks = LruCache::sparse(alloc, most).ok();
        }
    }

    /// Whether there is room for one more block, of `size` bytes.
    fn fits(&self, size: u64) -> bool
        ensures { IsTrue result → bytes_in self.now.entries + size ≤ room_of self.now.tuning }
    {
        size <= room_of(self.tuning) - self.bytes()
            && (self.cached() as u64) < self.tuning.cache_blocks
    }

    /// Removes blocks, the least recently used first, until there is room for one more of `size`
    /// bytes.
    fn let_go(&mut self, size: u64)
        ensures tuning { self.new.tuning ≡ self.old.tuning }
        ensures entries { (e : Name × Octets) → Contains self.new.entries e → Contains self.old.entries e }
    {
        for _ in 0..self.cached() {
            if self.fits(size) {
                return;
            }
            self.forget_last();
        }
    }

    fn forget_last(&mut self)
        ensures tuning { self.new.tuning ≡ self.old.tuning }
        ensures entries { (e : Name × Octets) → Contains self.new.entries e → Contains self.old.entries e }
    {
        if let Some(kept) = &mut self.blocks {
            self.bytes -= drop_last(kept);
        }
    }

    fn put(&mut self, name: BlockName, bytes: Vec<u8>)
        ensures tuning { self.new.tuning ≡ self.old.tuning }
        ensures entries { (e : Name × Octets) → Contains self.new.entries e
            → Contains self.old.entries e ⊎ (e ≡ (name_of name, bytes.items)) }
    {
        if !self.fits(bytes.len() as u64) {
            return;
        }
        if let Some(kept) = &mut self.blocks {
            self.bytes += add(kept, name, bytes);
        }
    }

    /// Removes a block whose row is deleted.
    pub fn forget(&mut self, name: &BlockName)
        ensures tuning { self.new.tuning ≡ self.old.tuning }
        ensures entries { (e : Name × Octets) → Contains self.new.entries e
            → Contains self.old.entries e × (e.0 ≢ name_of name.now) }
    {
        if let Some(kept) = &mut self.blocks {
            self.bytes -= drop_named(kept, name);
        }
    }

    /// Empties the cache.
    pub fn clear(&mut self)
        ensures { self.new ≡ no_blocks self.old.tuning }
    {
        self.blocks = None;
        self.bytes = 0;
    }
}
