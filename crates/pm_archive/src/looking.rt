//! Looks up the content of one tile id.

ghost use Rattle.std.specs.Prelude.{◌≡◌, ℕ, ◌<◌, ◌≤◌, List, [], Ok, Err, OnOk, IfOk, IfErr, IfSome, Option, Some, None, option_map};
ghost use Rattle.reader.specs.Reading.{GivesUnless};
ghost use Rattle.pm_directory.specs.declared.entry.DirectoryEntry.{DirectoryEntry};
ghost use Rattle.pm_directory.specs.Directory.{IsAscending};
ghost use Rattle.byte_source.specs.Source.{Keeps};
ghost use Rattle.pm_archive.specs.Sections.{end_of};
ghost use Rattle.pm_archive.specs.Entries.{LiesIn, LiesInside};
ghost use Rattle.pm_archive.specs.Reading.{ArePlaced};
ghost use Rattle.pm_archive.specs.Answers.{IsOutside};
ghost use Rattle.pm_archive.specs.Looked.{leading_of, reached_at, content_at, looked_at};
ghost use Rattle.pm_archive.specs.Lookup.{AreCachedOf, AreInside, IsSmall};
ghost use Rattle.pm_archive.specs.Spans.{end_of_span, span_bytes};

use crate::content_span::ContentSpan;
use crate::fault::ArchiveFault;
use crate::leaf::leading;
use crate::leaves::{Leaves, leading_below};
use crate::limits::MAX_LEAF_LEVELS;
use crate::reading::{content_of, offset_of};
use byte_source::Bytes;
use pm_directory::DirectoryEntry;
use pm_header::Header;
use std::alloc::Global;

/// The tile entry that an entry is, or to which its leaf directory leads; `more` is the number of levels of leaf directories that may follow.
#[tactic(auto, unfolding(crate::specs::Looked::reached_at))]
fn tile_entry<B: Bytes>(
    alloc: Global,
    source: &mut B,
    header: &Header,
    entry: Option<DirectoryEntry>,
    cached: &mut Leaves,
    id: u64,
    more: u8,
) -> Result<Option<DirectoryEntry>, ArchiveFault>
    requires { end_of header.now.leaves ≤ B.count source.old }
    ensures source { Keeps B.count B.holds B.unchanged source.old source.new }
    ensures still { (bytes : List ℕ) → B.holds source.new bytes → AreCachedOf bytes header.now cached.old → AreCachedOf bytes header.now cached.new }
    ensures room { IsSmall cached.old → IsSmall cached.new }
    ensures first { (bytes : List ℕ) → B.holds source.new bytes → AreCachedOf bytes header.now cached.old
        → GivesUnless IsOutside (λ e. e) result (reached_at bytes header.now id more entry) }
    ensures read { result ≡ Err ArchiveFault.Read → B.failed source.old source.new }
    ensures none { entry ≡ None → result ≡ Ok None }
    ensures tile { (tile : DirectoryEntry) → entry ≡ Some tile → 0 < tile.run → result ≡ Ok (Some tile) }
    ensures still_inside { AreInside header.now cached.old → AreInside header.now cached.new }
    ensures inside { AreInside header.now cached.old → (leaf : DirectoryEntry) → entry ≡ Some leaf → leaf.run ≡ 0
        → OnOk result (LiesIn header.now.leaves leaf) }
    ensures memory { AreInside header.now cached.old → result ≡ Err ArchiveFault.Memory
        → (leaf : DirectoryEntry) × (entry ≡ Some leaf) × (leaf.run ≡ 0) × (0 < more) × LiesIn header.now.leaves leaf }
{
    let leaf = match entry {
        Some(leaf) => leaf,
        None => return Ok(None),
    };
    if leaf.run > 0 {
        return Ok(Some(leaf));
    }
    if more == 0 {
        return Err(ArchiveFault::Depth);
    }
    let below = leading_below(alloc, source, header, leaf, cached, id)?;
    tile_entry(alloc, source, header, below, cached, id, more - 1)
}

/// The content of a tile entry, if there is one.
#[tactic(auto, unfolding(crate::specs::Looked::content_at, crate::specs::Reading::content_of_tile))]
fn content_in<B: Bytes>(
    alloc: Global,
    source: &mut B,
    header: &Header,
    entry: Option<DirectoryEntry>,
) -> Result<Option<Vec<u8>>, ArchiveFault>
    requires { end_of header.now.tiles ≤ B.count source.old }
    ensures source { Keeps B.count B.holds B.unchanged source.old source.new }
    ensures first { (bytes : List ℕ) → B.holds source.new bytes → GivesUnless IsOutside (option_map (λ v. v.items)) result (content_at bytes header.now entry) }
    ensures read { result ≡ Err ArchiveFault.Read → B.failed source.old source.new }
    ensures memory { result ≡ Err ArchiveFault.Memory → (tile : DirectoryEntry) × (entry ≡ Some tile) × LiesIn header.now.tiles tile }
{
    let entry = match entry {
        Some(entry) => entry,
        None => return Ok(None),
    };
    let content = content_of(alloc, source, header, entry)?;
    Ok(Some(content))
}

/// The content of an id, by the directories on the way to its entry: cached ones, and others that are read and cached.
pub(crate) fn content_below<B: Bytes>(
    alloc: Global,
    source: &mut B,
    header: &Header,
    root: &[DirectoryEntry],
    cached: &mut Leaves,
    id: u64,
) -> Result<Option<Vec<u8>>, ArchiveFault>
    requires placed { ArePlaced (B.count source.old) header.now }
    requires ascending { IsAscending root.now }
    ensures source { Keeps B.count B.holds B.unchanged source.old source.new }
    ensures still { (bytes : List ℕ) → B.holds source.new bytes → AreCachedOf bytes header.now cached.old → AreCachedOf bytes header.now cached.new }
    ensures room { IsSmall cached.old → IsSmall cached.new }
    ensures first { (bytes : List ℕ) → B.holds source.new bytes → AreCachedOf bytes header.now cached.old
        → GivesUnless IsOutside (option_map (λ v. v.items)) result (looked_at bytes header.now root.now id) }
    ensures read { result ≡ Err ArchiveFault.Read → B.failed source.old source.new }
    ensures still_inside { AreInside header.now cached.old → AreInside header.now cached.new }
    ensures memory { AreInside header.now cached.old → result ≡ Err ArchiveFault.Memory → LiesInside header.now (leading_of id root.now) }
{
    let entry = tile_entry(
        alloc,
        source,
        header,
        leading(root, id),
        cached,
        id,
        MAX_LEAF_LEVELS,
    )?;
    content_in(alloc, source, header, entry)
}

/// Where the content of a tile entry is, if there is one.
#[tactic(auto, unfolding(crate::specs::Looked::content_at))]
fn span_in<B: Bytes>(
    source: &B,
    header: &Header,
    entry: Option<DirectoryEntry>,
) -> Result<Option<ContentSpan>, ArchiveFault>
    requires { end_of header.now.tiles ≤ B.count source.now }
    ensures first { (bytes : List ℕ) → GivesUnless IsOutside (option_map (span_bytes bytes)) result (content_at bytes header.now entry) }
    ensures inside { IfOk result (λ found. IfSome found (λ span. end_of_span span ≤ B.count source.now)) }
    ensures fault { IfErr result (λ fault. ¬ IsOutside fault) }
{
    let entry = match entry {
        Some(entry) => entry,
        None => return Ok(None),
    };
    match offset_of(source, header.tiles, entry) {
        Ok(offset) => Ok(Some(ContentSpan {
            offset,
            length: u64::from(entry.length),
        })),
        Err(fault) => Err(fault),
    }
}

/// Where the content of an id is, by the directories on the way to its entry: cached ones, and others that are read and cached.
pub(crate) fn span_below<B: Bytes>(
    alloc: Global,
    source: &mut B,
    header: &Header,
    root: &[DirectoryEntry],
    cached: &mut Leaves,
    id: u64,
) -> Result<Option<ContentSpan>, ArchiveFault>
    requires placed { ArePlaced (B.count source.old) header.now }
    requires ascending { IsAscending root.now }
    ensures source { Keeps B.count B.holds B.unchanged source.old source.new }
    ensures still { (bytes : List ℕ) → B.holds source.new bytes → AreCachedOf bytes header.now cached.old → AreCachedOf bytes header.now cached.new }
    ensures room { IsSmall cached.old → IsSmall cached.new }
    ensures first { (bytes : List ℕ) → B.holds source.new bytes → AreCachedOf bytes header.now cached.old
        → GivesUnless IsOutside (option_map (span_bytes bytes)) result (looked_at bytes header.now root.now id) }
    ensures inside { IfOk result (λ found. IfSome found (λ span. end_of_span span ≤ B.count source.old)) }
    ensures read { result ≡ Err ArchiveFault.Read → B.failed source.old source.new }
    ensures still_inside { AreInside header.now cached.old → AreInside header.now cached.new }
    ensures memory { AreInside header.now cached.old → result ≡ Err ArchiveFault.Memory → LiesInside header.now (leading_of id root.now) }
{
    let entry = tile_entry(
        alloc,
        source,
        header,
        leading(root, id),
        cached,
        id,
        MAX_LEAF_LEVELS,
    )?;
    span_in(source, header, entry)
}
