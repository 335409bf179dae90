//! A cache of leaf directories for look-ups.

ghost use Rattle.std.specs.Prelude.{◌≡◌, ℕ, ◌+◌, ◌≤◌, ◌<◌, ◌⊎◌, List, [], ◌∷◌, ◌++◌, Err, OnOk, IfSome, IfNone};
ghost use Rattle.std.specs.List.{All, Contains};
ghost use Rattle.reader.specs.Reading.{GivesUnless};
ghost use Rattle.pm_header.specs.declared.header.Header.{Header};
ghost use Rattle.byte_source.specs.Source.{Keeps};
ghost use Rattle.pm_archive.specs.Sections.{end_of};
ghost use Rattle.pm_archive.specs.Entries.{LiesIn};
ghost use Rattle.pm_archive.specs.Answers.{IsOutside};
ghost use Rattle.pm_archive.specs.Looked.{leading_at};
ghost use Rattle.pm_archive.specs.Lookup.{LeafView, IsLeafOf, AreCachedOf, AreInside, IsSmall, IsCachedBeside, leaf_bytes, bytes_of, left_beside};

use crate::fault::ArchiveFault;
use crate::leaf::Leaf;
use crate::limits::{MAX_CACHED_BYTES, MAX_CACHED_LEAF_BYTES};
use byte_source::Bytes;
use pm_directory::DirectoryEntry;
use pm_header::Header;
use std::alloc::Global;
use std::marker::Model;

/// Cached leaf directories, the latest at the end.
#[derive(Drop)]
pub(crate) struct Leaves {
    all: Vec<Leaf>,
    // The sum of their stored lengths in bytes.
    bytes: u32,
}

impl Model for Leaves {
    ghost Value = { List LeafView };

    ghost view = { λ l. l.all.items };

    ghost invariant = { λ l. (l.bytes ≡ bytes_of l.all.items) × IsSmall l.all.items };
}

impl Leaves {
    /// An empty cache. It allocates nothing.
    pub(crate) fn none(alloc: Global) -> Leaves
        ensures { result ≡ [] }
    {
        Leaves {
            all: Vec::new(alloc),
            bytes: 0,
        }
    }

    /// The directory that this entry names, if it is cached.
    fn find(&self, entry: DirectoryEntry) -> Option<&Leaf>
        ensures of_entry { IfSome result (λ leaf. leaf.now.entry ≡ entry) }
        ensures cached { IfSome result (λ leaf. Contains self.now leaf.now) }
        ensures none { IfNone result (All (λ leaf. ¬ (leaf.entry ≡ entry)) self.now) }
    {
        let mut at = self.all.len();
        while at > 0 {
            at -= 1;
            let leaf = &self.all[at];
            if leaf.is_of(entry) {
                return Some(leaf);
            }
        }
        None
    }

    /// Drops all of them if a directory of this length wouldn't fit as well.
    fn make_room(&mut self, length: u32)
        requires { length ≤ MAX_CACHED_LEAF_BYTES }
        ensures { self.new ≡ left_beside length self.old }
    {
        if self.bytes + length > MAX_CACHED_BYTES {
            self.all.clear();
            self.bytes = 0;
        }
    }

    /// Adds a directory that fits. If memory runs out, it isn't added.
    fn push(&mut self, leaf: Leaf)
        requires small { leaf_bytes leaf ≤ MAX_CACHED_LEAF_BYTES }
        requires fits { bytes_of self.old + leaf_bytes leaf ≤ MAX_CACHED_BYTES }
        ensures cached { (self.new ≡ self.old ++ leaf ∷ []) ⊎ (self.new ≡ self.old) }
        ensures room { IsSmall self.new }
    {
        let length = leaf.len();
        if self.all.push(leaf).is_ok() {
            self.bytes += length;
        }
    }

    /// Caches a directory if it is small. If it doesn't fit beside the others, they are dropped first. If memory runs out, it isn't cached.
    fn insert(&mut self, leaf: Leaf)
        ensures large { MAX_CACHED_LEAF_BYTES < leaf_bytes leaf → self.new ≡ self.old }
        ensures cached { leaf_bytes leaf ≤ MAX_CACHED_LEAF_BYTES → IsCachedBeside leaf self.old self.new }
        ensures still { (bytes : List ℕ) (h : Header) → IsLeafOf bytes h leaf → AreCachedOf bytes h self.old → AreCachedOf bytes h self.new }
        ensures inside { (h : Header) → LiesIn h.leaves leaf.entry → AreInside h self.old → AreInside h self.new }
        ensures room { IsSmall self.old → IsSmall self.new }
    {
        let length = leaf.len();
        if length > MAX_CACHED_LEAF_BYTES {
            return;
        }
        self.make_room(length);
        self.push(leaf);
    }
}

/// The entry that leads to an id in the leaf directory that an entry names. The directory is taken from the cache, or read and cached.
#[tactic(auto, unfolding(crate::specs::Looked::leading_at))]
pub(crate) fn leading_below<B: Bytes>(
    alloc: Global,
    source: &mut B,
    header: &Header,
    entry: DirectoryEntry,
    cached: &mut Leaves,
    id: u64,
) -> Result<Option<DirectoryEntry>, ArchiveFault>
    requires { end_of header.now.leaves ≤ B.count source.old }
    ensures source { Keeps B.count B.holds B.unchanged source.old source.new }
    ensures still { (bytes : List ℕ) → B.holds source.new bytes → AreCachedOf bytes header.now cached.old → AreCachedOf bytes header.now cached.new }
    ensures room { IsSmall cached.old → IsSmall cached.new }
    ensures first { (bytes : List ℕ) → B.holds source.new bytes → AreCachedOf bytes header.now cached.old
        → GivesUnless IsOutside (λ found. found) result (leading_at bytes header.now id entry) }
    ensures read { result ≡ Err ArchiveFault.Read → B.failed source.old source.new }
    ensures memory { result ≡ Err ArchiveFault.Memory → LiesIn header.now.leaves entry }
    ensures inside { AreInside header.now cached.old → OnOk result (LiesIn header.now.leaves entry) }
    ensures still_inside { AreInside header.now cached.old → AreInside header.now cached.new }
    // A cached directory isn't read.
    ensures again { (leaf : LeafView) → Contains cached.old leaf → leaf.entry ≡ entry → (source.new ≡ source.old) × (cached.new ≡ cached.old) }
    ensures cached { All (λ leaf. ¬ (leaf.entry ≡ entry)) cached.old → entry.length ≤ MAX_CACHED_LEAF_BYTES
        → OnOk result ((leaf : LeafView) × (leaf.entry ≡ entry) × IsCachedBeside leaf cached.old cached.new) }
{
    if let Some(leaf) = cached.find(entry) {
        return Ok(leaf.leading(id));
    }
    let leaf = Leaf::read(alloc, source, header, entry)?;
    let found = leaf.leading(id);
    cached.insert(leaf);
    Ok(found)
}
