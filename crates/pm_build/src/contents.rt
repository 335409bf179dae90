//! The different contents of tiles.

ghost use Rattle.std.specs.Prelude.{◌≡◌, ◌<◌, ◌^◌, ◌++◌, ◌∷◌, [], List, length, None, OnOk, OnErr, IfOk, IfSome, Contains};
ghost use Rattle.std.specs.List.{concat};
ghost use Rattle.pm_build.specs.Hashing.{content_hash};
ghost use Rattle.pm_build.specs.Different.{content_at, offset_from, with_content};
ghost use Rattle.pm_build.specs.Firsts.{AreFirsts};
ghost use Rattle.pm_build.specs.Tiles.{Tile};

use crate::hashing::{HashedWords, hash_of, hash_with, hash_words};
use crate::index::ContentIndex;
use std::alloc::{AllocError, Global};
use std::marker::Model;

/// Different contents, each stored once, in the order in which they were added. An equal content is found by its hash, and compared byte
/// for byte.
#[derive(Drop)]
pub(crate) struct Contents {
    index: ContentIndex,
    /// The contents, one after the other, and then the bytes that are put ahead.
    bytes: Vec<u8>,
    /// What is hashed of those that are put ahead.
    hashed: HashedWords,
}

impl Model for Contents {
    ghost use Rattle.pm_build.specs.Storing.{ContentsView};

    ghost Value = { ContentsView };

    ghost use Rattle.pm_build.specs.Storing.{contents_view, IsStore};

    ghost view = { contents_view };

    ghost invariant = { IsStore };
}

/// Adds a content that isn't stored after the others, and returns its place. `first` is the id of the first tile that has it.
fn push(
    index: &mut ContentIndex,
    bytes: &mut Vec<u8>,
    content: &[u8],
    hash: u64,
    first: u64,
) -> Result<usize, AllocError>
    requires stored { bytes.old.items ≡ concat index.old.contents }
    requires hash { hash ≡ content_hash content.now }
    requires short { length content.now < 2 ^ 32 }
    ensures stored { bytes.new.items ≡ concat index.new.contents }
    ensures place { IfOk result (λ place. place ≡ length index.old.contents) }
    ensures contents { OnOk result (index.new.contents ≡ index.old.contents ++ content.now ∷ []) }
    ensures firsts { OnOk result (index.new.firsts ≡ index.old.firsts ++ first ∷ []) }
    ensures unchanged { OnErr result (index.new ≡ index.old) }
{
    let from = bytes.len();
    bytes.extend_from_slice(content)?;
    match index.push(bytes, from, hash, first) {
        Ok(place) => Ok(place),
        Err(fault) => {
            bytes.truncate(from);
            Err(fault)
        }
    }
}

impl Contents {
    /// No contents. It allocates nothing.
    pub(crate) fn new(alloc: Global) -> Contents
        ensures { result ≡ record { index = record { contents = []; firsts = [] }; ahead = [] } }
    {
        Contents {
            index: ContentIndex::new(alloc),
            bytes: Vec::new(alloc),
            hashed: HashedWords::none(),
        }
    }

    /// No contents, with memory for `bytes` bytes of them, or as `new` if that is refused.
    pub(crate) fn with_capacity(alloc: Global, bytes: usize) -> Contents
        ensures { result ≡ record { index = record { contents = []; firsts = [] }; ahead = [] } }
    {
        match Vec::with_capacity(alloc, bytes) {
            Ok(bytes) => Contents {
                index: ContentIndex::new(alloc),
                bytes,
                hashed: HashedWords::none(),
            },
            Err(_) => Contents::new(alloc),
        }
    }

    /// What is known of them.
    pub(crate) fn index(&self) -> &ContentIndex
        ensures { result.now ≡ self.now.index }
    {
        &self.index
    }

    /// What is known of them, and the list of their bytes, which is of no use without it.
    pub(crate) fn into_parts(self) -> (ContentIndex, Vec<u8>)
        ensures { result.0 ≡ self.index }
    {
        (self.index, self.bytes)
    }

    /// Their bytes, one content after the other. What is put ahead is dropped.
    pub(crate) fn into_bytes(self) -> Vec<u8>
        ensures { result.items ≡ concat self.index.contents }
    {
        let total = self.index.total();
        let Contents {
            index: _,
            bytes,
            hashed: _,
        } = self;
        let mut contents = bytes;
        contents.truncate(total);
        contents
    }

    /// The content at a place.
    pub(crate) fn at(&self, place: usize) -> &[u8]
        requires { place < length self.now.index.contents }
        ensures { result.now ≡ content_at self.now.index.contents place }
    {
        let stored = self.index.stored_at(place);
        &self.bytes[stored.offset..stored.offset + stored.len as usize]
    }

    /// The bytes that are put ahead.
    pub(crate) fn ahead(&self) -> &[u8]
        ensures { result.now ≡ self.now.ahead }
    {
        &self.bytes[self.index.total()..]
    }

    /// Puts these bytes ahead after those that are, and hashes the whole words of all. The only error is out of memory.
    pub(crate) fn put_ahead(&mut self, part: &[u8]) -> Result<(), AllocError>
        ensures put { OnOk result (self.new ≡ record self.old { ahead = self.old.ahead ++ part.now }) }
        ensures unchanged { OnErr result (self.new ≡ self.old) }
    {
        self.bytes.extend_from_slice(part)?;
        self.hashed = hash_words(&self.bytes[self.index.total()..], self.hashed);
        Ok(())
    }

    /// Drops what is put ahead.
    pub(crate) fn drop_ahead(&mut self)
        ensures { self.new ≡ record self.old { ahead = [] } }
    {
        let total = self.index.total();
        self.bytes.truncate(total);
        self.hashed = HashedWords::none();
    }

    /// The place of this content, if it is stored. It is compared with each content of its hash.
    fn find(&self, content: &[u8], hash: u64) -> Option<usize>
        requires { hash ≡ content_hash content.now }
        ensures found { IfSome result
            (λ place. (place < length self.now.index.contents) × (content_at self.now.index.contents place ≡ content.now)) }
        ensures none { result ≡ None → offset_from 0 self.now.index.contents content.now ≡ None }
    {
        let mut next = self.index.last_of(hash);
        while let Some(place) = next {
            if self.at(place) == content {
                return Some(place);
            }
            next = self.index.before(place);
        }
        None
    }

    /// The place of this content, which is added after the others if it isn't stored yet, as that of the tile `first`. It allocates nothing
    /// if it is.
    pub(crate) fn place_given(&mut self, content: &[u8], first: u64) -> Result<usize, AllocError>
        requires ahead { self.old.ahead ≡ [] }
        requires short { length content.now < 2 ^ 32 }
        ensures placed { IfOk result
            (λ place. (place < length self.new.index.contents) × (content_at self.new.index.contents place ≡ content.now)) }
        ensures contents { OnOk result (self.new.index.contents ≡ with_content self.old.index.contents content.now) }
        ensures firsts { OnOk result ((ts : List Tile)
            → AreFirsts ts self.old.index → Contains ts (first, content.now) → AreFirsts ts self.new.index) }
        ensures ahead { self.new.ahead ≡ [] }
        ensures unchanged { OnErr result (self.new.index ≡ self.old.index) }
        ensures memory { OnErr result (offset_from 0 self.old.index.contents content.now ≡ None) }
    {
        let hash = hash_of(content);
        match self.find(content, hash) {
            Some(place) => Ok(place),
            None => push(&mut self.index, &mut self.bytes, content, hash, first),
        }
    }

    /// The place of the content that is put ahead, which is added to the others if it isn't stored yet, as that of the tile `first`, and else
    /// dropped. Its bytes are not copied, and compared only with stored contents of its hash. It allocates nothing if it is stored.
    pub(crate) fn place_ahead(&mut self, first: u64) -> Result<usize, AllocError>
        requires { length self.old.ahead < 2 ^ 32 }
        ensures placed { IfOk result
            (λ place. (place < length self.new.index.contents) × (content_at self.new.index.contents place ≡ self.old.ahead)) }
        ensures contents { OnOk result (self.new.index.contents ≡ with_content self.old.index.contents self.old.ahead) }
        ensures firsts { OnOk result ((ts : List Tile)
            → AreFirsts ts self.old.index → Contains ts (first, self.old.ahead) → AreFirsts ts self.new.index) }
        ensures ahead { OnOk result (self.new.ahead ≡ []) }
        ensures unchanged { OnErr result (self.new ≡ self.old) }
        ensures memory { OnErr result (offset_from 0 self.old.index.contents self.old.ahead ≡ None) }
    {
        let from = self.index.total();
        let hash = hash_with(&self.bytes[from..], self.hashed);
        match self.find(self.ahead(), hash) {
            Some(place) => {
                self.drop_ahead();
                Ok(place)
            }
            None => {
                let place = self.index.push(&self.bytes, from, hash, first)?;
                self.hashed = HashedWords::none();
                Ok(place)
            }
        }
    }
}
