//! Open archives.

ghost use Rattle.std.specs.Prelude.{◌≡◌, ◌<◌, ℕ, List, length, Option, Err, slice_get, IfOk, IfErr, MatchResult, option_map};
ghost use Rattle.reader.specs.Reading.{GivesUnless};
ghost use Rattle.std.specs.List.{AllByRecursion};
ghost use Rattle.pm_header.specs.declared.header.Header.{Header};
ghost use Rattle.pm_directory.specs.declared.entry.DirectoryEntry.{DirectoryEntry};
ghost use Rattle.pm_directory.specs.Directory.{IsAscending, IsDirectory, IsEntry};
ghost use Rattle.byte_source.specs.Source.{Keeps};
ghost use Rattle.pm_archive.specs.Source.{ArchiveView};
ghost use Rattle.pm_archive.specs.Sections.{HasSections, section_bytes};
ghost use Rattle.pm_archive.specs.Entries.{HasEntries, LiesIn, LiesInside};
ghost use Rattle.pm_archive.specs.Archive.{content_of};
ghost use Rattle.pm_archive.specs.Reading.{ArePlaced, OpeningHas, content_of_tile, list_at};
ghost use Rattle.pm_archive.specs.Looked.{leading_of, looked_at};
ghost use Rattle.pm_archive.specs.Lookup.{AreCachedOf, AreInside};
ghost use Rattle.pm_archive.specs.Answers.{IsOutside, UnlessOutside};

use crate::fault::ArchiveFault;
use crate::leaves::Leaves;
use crate::listing::entries_below;
use crate::looking::content_below;
use crate::opening::header_and_root;
use crate::reading::{bytes_at, content_of};
use byte_source::Bytes;
use pm_directory::DirectoryEntry;
use pm_header::Header;
use std::alloc::Global;
use std::marker::Model;

/// An open archive: its source, its header, its root directory and cached leaf directories. `tile` caches those that it reads, under the
/// limits of `Lookup`.
#[derive(Drop)]
pub struct Archive<B: Bytes + Drop> {
    source: B,
    header: Header,
    root: Vec<DirectoryEntry>,
    leaves: Leaves,
}

impl<B: Bytes + Drop> Model for Archive<B> {
    ghost Value = { ArchiveView B };

    ghost view = { λ a. record { source = a.source; header = a.header; root = a.root.items } };

    ghost invariant = { λ a. ArePlaced (B.count a.source) a.header × IsAscending a.root.items
        × ((bytes : List ℕ) → B.holds a.source bytes → HasSections bytes a.header × IsDirectory (section_bytes a.header.root bytes) a.root.items)
        × AllByRecursion IsEntry a.root.items × AreInside a.header a.leaves
        × ((bytes : List ℕ) → B.holds a.source bytes → AreCachedOf bytes a.header a.leaves) };
}

impl<B: Bytes + Drop> Archive<B> {
    /// Opens an archive: reads its header and its root directory, and nothing else. If it fails, the source is returned.
    ///
    /// # Errors
    ///
    /// `Short`, `Magic`, `Version`, `Section`, `Compressed`, `Directory` of the root, the first that applies. `Read` if a read of the
    /// source fails. `Memory` only if the header and the section bounds are valid.
    pub fn open(alloc: Global, source: B) -> Result<Archive<B>, (B, ArchiveFault)>
        ensures source { IfOk result (λ a. Keeps B.count B.holds B.unchanged source a.source) }
        ensures back { IfErr result (λ e. Keeps B.count B.holds B.unchanged source e.0) }
        ensures found { IfOk result (λ a. (bytes : List ℕ) → B.holds a.source bytes
            → HasSections bytes a.header × IsDirectory (section_bytes a.header.root bytes) a.root) }
        ensures only { (bytes : List ℕ) (h : Header) (root : List DirectoryEntry) → HasSections bytes h → IsDirectory (section_bytes h.root bytes) root
            → MatchResult result (λ a. B.holds a.source bytes → (a.header ≡ h) × (a.root ≡ root)) (λ e. B.holds e.0 bytes → IsOutside e.1) }
        ensures fault { IfErr result (λ e. (bytes : List ℕ) → B.holds e.0 bytes → UnlessOutside (OpeningHas bytes) e.1) }
        ensures read { IfErr result (λ e. e.1 ≡ ArchiveFault.Read → B.failed source e.0) }
        ensures memory { IfErr result (λ e. (bytes : List ℕ) → B.holds e.0 bytes → e.1 ≡ ArchiveFault.Memory → (h : Header) × HasSections bytes h) }
    {
        let mut source = source;
        match header_and_root(alloc, &mut source) {
            Ok((header, root)) => Ok(Archive {
                source,
                header,
                root,
                leaves: Leaves::none(alloc),
            }),
            Err(fault) => Err((source, fault)),
        }
    }

    /// The source.
    pub fn into_source(self) -> B
        ensures { result ≡ self.source }
    {
        self.source
    }

    /// The header.
    pub fn header(&self) -> Header
        ensures header { result ≡ self.now.header }
        ensures found { (bytes : List ℕ) → B.holds self.now.source bytes
            → HasSections bytes self.now.header × IsDirectory (section_bytes self.now.header.root bytes) self.now.root }
    {
        self.header
    }

    /// The bytes of the metadata. Whether they are a JSON object isn't checked (`pm_metadata::is_metadata`).
    ///
    /// # Errors
    ///
    /// `Read` if a read of the source fails. `Memory` only if the metadata has a byte or more.
    pub fn metadata(&mut self) -> Result<Vec<u8>, ArchiveFault>
        ensures header { self.new.header ≡ self.old.header }
        ensures root { self.new.root ≡ self.old.root }
        ensures source { Keeps B.count B.holds B.unchanged self.old.source self.new.source }
        ensures bytes { (bytes : List ℕ) → B.holds self.new.source bytes → IfOk result (λ v. v.items ≡ section_bytes self.old.header.metadata bytes) }
        ensures len { IfOk result (λ v. length v.items ≡ self.old.header.metadata.length) }
        ensures fault { IfErr result IsOutside }
        ensures read { result ≡ Err ArchiveFault.Read → B.failed self.old.source self.new.source }
        ensures memory { result ≡ Err ArchiveFault.Memory → 0 < self.old.header.metadata.length }
    {
        let alloc = *self.root.allocator();
        let section = self.header.metadata;
        bytes_at(alloc, &mut self.source, section.offset, section.length)
    }

    /// The tile entries of all directories, in ascending order.
    ///
    /// # Errors
    ///
    /// `Directory`, `Order`, `Depth`, `Place`, the first in the order of the entries, a leaf directory's at the entry that names it.
    /// `Read` if a read of the source fails. `Memory` only if there is a first entry whose bytes are inside their section.
    pub fn list(&mut self) -> Result<Vec<DirectoryEntry>, ArchiveFault>
        ensures header { self.new.header ≡ self.old.header }
        ensures root { self.new.root ≡ self.old.root }
        ensures source { Keeps B.count B.holds B.unchanged self.old.source self.new.source }
        ensures found { (bytes : List ℕ) → B.holds self.new.source bytes → IfOk result (λ tiles. HasEntries bytes self.old.header tiles.items) }
        ensures only { (bytes : List ℕ) (tiles : List DirectoryEntry) → B.holds self.new.source bytes → HasEntries bytes self.old.header tiles
            → MatchResult result (λ listed. listed.items ≡ tiles) IsOutside }
        ensures first { (bytes : List ℕ) → B.holds self.new.source bytes
            → GivesUnless IsOutside (λ tiles. tiles.items) result (list_at bytes self.old.header self.old.root) }
        ensures read { result ≡ Err ArchiveFault.Read → B.failed self.old.source self.new.source }
        ensures memory { result ≡ Err ArchiveFault.Memory → LiesInside self.old.header (slice_get self.old.root 0) }
    {
        let alloc = *self.root.allocator();
        entries_below(alloc, &mut self.source, &self.header, &self.root)
    }

    /// The content of a tile id, or `None` if no entry has it. Reads the content, and those directories on the way to its entry that
    /// aren't cached.
    ///
    /// # Errors
    ///
    /// `Directory`, `Depth`, `Place`, the first on the way; none of them if `list` succeeds. `Read` if a read of the source fails.
    /// `Memory` only if an entry of the root directory leads to the id and its bytes are inside their section.
    pub fn tile(&mut self, id: u64) -> Result<Option<Vec<u8>>, ArchiveFault>
        ensures header { self.new.header ≡ self.old.header }
        ensures root { self.new.root ≡ self.old.root }
        ensures source { Keeps B.count B.holds B.unchanged self.old.source self.new.source }
        ensures content { (bytes : List ℕ) (tiles : List DirectoryEntry) → B.holds self.new.source bytes → HasEntries bytes self.old.header tiles
            → MatchResult result (λ content. option_map (λ v. v.items) content ≡ content_of bytes self.old.header tiles id) IsOutside }
        ensures first { (bytes : List ℕ) → B.holds self.new.source bytes
            → GivesUnless IsOutside (option_map (λ v. v.items)) result (looked_at bytes self.old.header self.old.root id) }
        ensures read { result ≡ Err ArchiveFault.Read → B.failed self.old.source self.new.source }
        ensures memory { result ≡ Err ArchiveFault.Memory → LiesInside self.old.header (leading_of id self.old.root) }
    {
        let alloc = *self.root.allocator();
        content_below(
            alloc,
            &mut self.source,
            &self.header,
            &self.root,
            &mut self.leaves,
            id,
        )
    }

    /// The content of a tile entry, such as `list` returns.
    ///
    /// # Errors
    ///
    /// `Place` if its bytes aren't inside the section of the contents. `Read` if a read of the source fails. `Memory` only if they are.
    pub fn content(&mut self, entry: DirectoryEntry) -> Result<Vec<u8>, ArchiveFault>
        ensures header { self.new.header ≡ self.old.header }
        ensures root { self.new.root ≡ self.old.root }
        ensures source { Keeps B.count B.holds B.unchanged self.old.source self.new.source }
        ensures first { (bytes : List ℕ) → B.holds self.new.source bytes
            → GivesUnless IsOutside (λ v. v.items) result (content_of_tile bytes self.old.header entry) }
        ensures read { result ≡ Err ArchiveFault.Read → B.failed self.old.source self.new.source }
        ensures memory { result ≡ Err ArchiveFault.Memory → LiesIn self.old.header.tiles entry }
    {
        let alloc = *self.root.allocator();
        content_of(alloc, &mut self.source, &self.header, entry)
    }
}
