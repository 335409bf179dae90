//! Look-ups of tiles in an archive whose source is passed to each call.

ghost use Rattle.std.specs.Prelude.{◌≡◌, ℕ, List, [], ◌≤◌, Option, Err, IfOk, IfErr, IfSome, MatchResult, option_map};
ghost use Rattle.reader.specs.Reading.{GivesUnless};
ghost use Rattle.pm_header.specs.declared.header.Header.{Header};
ghost use Rattle.pm_directory.specs.declared.entry.DirectoryEntry.{DirectoryEntry};
ghost use Rattle.pm_directory.specs.Directory.{IsAscending, IsDirectory};
ghost use Rattle.byte_source.specs.Source.{Keeps};
ghost use Rattle.pm_archive.specs.Sections.{HasSections, section_bytes};
ghost use Rattle.pm_archive.specs.Archive.{HasContents};
ghost use Rattle.pm_archive.specs.Entries.{LiesInside};
ghost use Rattle.pm_archive.specs.Reading.{ArePlaced, OpeningHas};
ghost use Rattle.pm_archive.specs.Looked.{leading_of, looked_at};
ghost use Rattle.pm_archive.specs.Lookup.{LookupView, IsLookupOf, AreInside, IsSmall};
ghost use Rattle.pm_archive.specs.Spans.{end_of_span, span_bytes};
ghost use Rattle.pm_archive.specs.Answers.{IsOutside, UnlessOutside};

use crate::content_span::ContentSpan;
use crate::fault::ArchiveFault;
use crate::leaves::Leaves;
use crate::looking::{content_below, span_below};
use crate::opening::header_and_root;
use byte_source::Bytes;
use pm_directory::DirectoryEntry;
use pm_header::Header;
use std::alloc::Global;
use std::marker::Model;

/// The header, the root directory and cached leaf directories of an archive. A leaf directory of more than 65,536 stored bytes isn't
/// cached. If another one would take the cache over 1,048,576 stored bytes, all are dropped first. The source is passed to each call.
#[derive(Drop)]
pub struct Lookup {
    count: u64,
    header: Header,
    root: Vec<DirectoryEntry>,
    leaves: Leaves,
}

impl Model for Lookup {
    ghost Value = { LookupView };

    ghost view = { λ l. record { count = l.count; header = l.header; root = l.root.items; leaves = l.leaves } };

    ghost invariant = { λ l. ArePlaced l.count l.header × IsAscending l.root.items × IsSmall l.leaves × AreInside l.header l.leaves };
}

impl Lookup {
    /// Reads the header and the root directory of the archive in a source, and nothing else.
    ///
    /// # Errors
    ///
    /// `Short`, `Magic`, `Version`, `Section`, `Compressed`, `Directory` of the root, the first that applies. `Read` if a read of the
    /// source fails. `Memory` only if the header and the section bounds are valid.
    pub fn open<B: Bytes>(alloc: Global, source: &mut B) -> Result<Lookup, ArchiveFault>
        ensures source { Keeps B.count B.holds B.unchanged source.old source.new }
        ensures count { IfOk result (λ l. l.count ≡ B.count source.old) }
        ensures leaves { IfOk result (λ l. l.leaves ≡ []) }
        ensures found { (bytes : List ℕ) → B.holds source.new bytes → IfOk result (IsLookupOf bytes) }
        ensures only { (bytes : List ℕ) (h : Header) (root : List DirectoryEntry) → HasSections bytes h → IsDirectory (section_bytes h.root bytes) root
            → B.holds source.new bytes → MatchResult result (λ l. (l.header ≡ h) × (l.root ≡ root)) IsOutside }
        ensures fault { (bytes : List ℕ) → B.holds source.new bytes → IfErr result (UnlessOutside (OpeningHas bytes)) }
        ensures read { result ≡ Err ArchiveFault.Read → B.failed source.old source.new }
        ensures memory { (bytes : List ℕ) → B.holds source.new bytes → result ≡ Err ArchiveFault.Memory → (h : Header) × HasSections bytes h }
    {
        match header_and_root(alloc, source) {
            Ok((header, root)) => Ok(Lookup {
                count: source.len(),
                header,
                root,
                leaves: Leaves::none(alloc),
            }),
            Err(fault) => Err(fault),
        }
    }

    /// Where the content of a tile id is, or `None` if no entry has it. Reads those directories on the way to its entry that aren't cached. The
    /// source has as many bytes as the one that was opened.
    ///
    /// # Errors
    ///
    /// Those of `tile`. `Memory` only if an entry of the root directory leads to the id and its bytes are inside their section. After an error
    /// the cache is still that of the source.
    pub fn find<B: Bytes>(
        &mut self,
        source: &mut B,
        id: u64,
    ) -> Result<Option<ContentSpan>, ArchiveFault>
        requires { self.old.count ≡ B.count source.old }
        ensures source { Keeps B.count B.holds B.unchanged source.old source.new }
        ensures count { self.new.count ≡ self.old.count }
        ensures header { self.new.header ≡ self.old.header }
        ensures root { self.new.root ≡ self.old.root }
        ensures still { (bytes : List ℕ) → B.holds source.new bytes → IsLookupOf bytes self.old → IsLookupOf bytes self.new }
        ensures room { IsSmall self.new.leaves }
        ensures content { (bytes : List ℕ) (content : ℕ → Option (List ℕ)) → B.holds source.new bytes → IsLookupOf bytes self.old
            → HasContents bytes content → MatchResult result (λ found. option_map (span_bytes bytes) found ≡ content id) IsOutside }
        ensures first { (bytes : List ℕ) → B.holds source.new bytes → IsLookupOf bytes self.old
            → GivesUnless IsOutside (option_map (span_bytes bytes)) result (looked_at bytes self.old.header self.old.root id) }
        ensures inside { IfOk result (λ found. IfSome found (λ span. end_of_span span ≤ self.old.count)) }
        ensures read { result ≡ Err ArchiveFault.Read → B.failed source.old source.new }
        ensures memory { result ≡ Err ArchiveFault.Memory → LiesInside self.old.header (leading_of id self.old.root) }
    {
        let alloc = *self.root.allocator();
        span_below(
            alloc,
            source,
            &self.header,
            &self.root,
            &mut self.leaves,
            id,
        )
    }

    /// The content of a tile id, or `None` if no entry has it. Reads the content, and those directories on the way to its entry that
    /// aren't cached. The source has as many bytes as the one that was opened.
    ///
    /// # Errors
    ///
    /// `Directory`, `Depth`, `Place`, the first on the way; none of them if all directories of the source are valid. `Read` if a read of the source
    /// fails. `Memory` only if an entry of the root directory leads to the id and its bytes are inside their section. After an error the
    /// cache is still that of the source.
    pub fn tile<B: Bytes>(
        &mut self,
        source: &mut B,
        id: u64,
    ) -> Result<Option<Vec<u8>>, ArchiveFault>
        requires { self.old.count ≡ B.count source.old }
        ensures source { Keeps B.count B.holds B.unchanged source.old source.new }
        ensures count { self.new.count ≡ self.old.count }
        ensures header { self.new.header ≡ self.old.header }
        ensures root { self.new.root ≡ self.old.root }
        ensures still { (bytes : List ℕ) → B.holds source.new bytes → IsLookupOf bytes self.old → IsLookupOf bytes self.new }
        ensures room { IsSmall self.new.leaves }
        ensures content { (bytes : List ℕ) (content : ℕ → Option (List ℕ)) → B.holds source.new bytes → IsLookupOf bytes self.old
            → HasContents bytes content → MatchResult result (λ found. option_map (λ v. v.items) found ≡ content id) IsOutside }
        ensures first { (bytes : List ℕ) → B.holds source.new bytes → IsLookupOf bytes self.old
            → GivesUnless IsOutside (option_map (λ v. v.items)) result (looked_at bytes self.old.header self.old.root id) }
        ensures read { result ≡ Err ArchiveFault.Read → B.failed source.old source.new }
        ensures memory { result ≡ Err ArchiveFault.Memory → LiesInside self.old.header (leading_of id self.old.root) }
    {
        let alloc = *self.root.allocator();
        content_below(
            alloc,
            source,
            &self.header,
            &self.root,
            &mut self.leaves,
            id,
        )
    }
}
