//! Which different contents there are.

ghost use Rattle.std.specs.Prelude.{◌≡◌, ◌≤◌, ◌<◌, ◌^◌, ◌+◌, ◌++◌, ◌∷◌, [], length, take, drop, OnOk, OnErr, IfOk, slice_index_or};
ghost use Rattle.std.specs.List.{concat};
ghost use Rattle.pm_build.specs.Different.{content_at};
ghost use Rattle.pm_build.specs.Hashing.{content_hash};
ghost use Rattle.pm_build.specs.Indexed.{IsLastOf};

use crate::content_list::ContentList;
use std::alloc::{AllocError, Global};
use std::collections::BTreeMap;
use std::marker::Model;

/// What is known of a content.
#[derive(Clone, Copy)]
pub(crate) struct Stored {
    /// The offset of its first byte, if the contents are stored one after the other.
    pub(crate) offset: usize,
    /// Its length in bytes.
    pub(crate) len: u32,
    /// The id of the first tile that has it.
    pub(crate) first: u64,
    /// The place of the last content before it that has the same hash.
    before: Option<usize>,
}

/// Different contents in the order in which they were added, without their bytes. A content's place is its index among them. Those that
/// may be equal to one have its hash.
#[derive(Drop)]
pub(crate) struct ContentIndex {
    stored: Vec<Stored>,
    /// For each hash the place of the last content that has it.
    last: BTreeMap<u64, usize>,
    /// The number of bytes of all contents.
    total: usize,
    /// The contents, which only clauses read.
    listed: ContentList,
}

impl Model for ContentIndex {
    ghost use Rattle.pm_build.specs.Indexed.{IndexView};

    ghost Value = { IndexView };

    ghost use Rattle.pm_build.specs.Indexed.{index_view, IsIndex};

    ghost view = { index_view };

    ghost invariant = { IsIndex };
}

impl ContentIndex {
    /// No contents. It allocates nothing.
    pub(crate) fn new(alloc: Global) -> ContentIndex
        ensures { result ≡ record { contents = []; firsts = [] } }
    {
        ContentIndex {
            stored: Vec::new(alloc),
            last: BTreeMap::new(alloc),
            total: 0,
            listed: ContentList::new(),
        }
    }

    /// The number of contents.
    pub(crate) fn count(&self) -> usize
        ensures { result ≡ length self.now.contents }
    {
        self.stored.len()
    }

    /// The number of their bytes.
    pub(crate) fn total(&self) -> usize
        ensures { result ≡ length (concat self.now.contents) }
    {
        self.total
    }

    /// What is known of the content at a place.
    pub(crate) fn stored_at(&self, place: usize) -> Stored
        requires { place < length self.now.contents }
        ensures offset { result.offset ≡ length (concat (take place self.now.contents)) }
        ensures len { result.len ≡ length (content_at self.now.contents place) }
        ensures first { result.first ≡ slice_index_or self.now.firsts place 0 }
    {
        self.stored[place]
    }

    /// The place of the last content that has this hash.
    pub(crate) fn last_of(&self, hash: u64) -> Option<usize>
        ensures { IsLastOf self.now.contents hash (length self.now.contents) result }
    {
        self.last.get(&hash).copied()
    }

    /// The place of the last content before this one that has its hash.
    pub(crate) fn before(&self, place: usize) -> Option<usize>
        requires { place < length self.now.contents }
        ensures { IsLastOf self.now.contents (content_hash (content_at self.now.contents place)) place result }
    {
        self.stored[place].before
    }

    /// Adds the content that `bytes` has from `from` on, which isn't among them, and returns its place. `first` is the id of the first tile
    /// that has it.
    pub(crate) fn push(
        &mut self,
        bytes: &Vec<u8>,
        from: usize,
        hash: u64,
        first: u64,
    ) -> Result<usize, AllocError>
        requires inside { from ≤ length bytes.now.items }
        requires hash { hash ≡ content_hash (drop from bytes.now.items) }
        requires short { length (drop from bytes.now.items) < 2 ^ 32 }
        requires total { length (concat self.old.contents) + length (drop from bytes.now.items) < 2 ^ 64 }
        ensures place { IfOk result (λ place. place ≡ length self.old.contents) }
        ensures contents { OnOk result (self.new.contents ≡ self.old.contents ++ drop from bytes.now.items ∷ []) }
        ensures firsts { OnOk result (self.new.firsts ≡ self.old.firsts ++ first ∷ []) }
        ensures unchanged { OnErr result (self.new ≡ self.old) }
    {
        let place = self.stored.len();
        let len = bytes.len() - from;
        self.stored.reserve(1)?;
        let stored = Stored {
            offset: self.total,
            len: len as u32,
            first,
            before: self.last.insert(hash, place)?,
        };
        self.stored.push(stored).unwrap();
        self.total += len;
        self.listed.add(bytes, from);
        Ok(place)
    }
}
