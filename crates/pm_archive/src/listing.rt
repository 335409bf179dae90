//! Lists the tile entries of all directories.

ghost use Rattle.std.specs.Prelude.{◌≡◌, ◌≢◌, ℕ, List, Err, IfOk, OnOk, Some, slice_get};
ghost use Rattle.reader.specs.Reading.{GivesUnless};
ghost use Rattle.pm_directory.specs.Directory.{IsAscending};
ghost use Rattle.byte_source.specs.Source.{Keeps};
ghost use Rattle.pm_archive.specs.Entries.{LiesIn, LiesInside, bound_of};
ghost use Rattle.pm_archive.specs.Reading.{ArePlaced, each_at, leaf_at, list_at, lists_at, stray_fault, stray_id, tile_at};
ghost use Rattle.pm_archive.specs.Answers.{IsOutside};
ghost use Rattle.pm_archive.specs.Listing.{behind, stray_of};

use crate::fault::ArchiveFault;
use crate::limits::MAX_LEAF_LEVELS;
use crate::reading::{directory_of, lies_in};
use byte_source::Bytes;
use hilbert_id::TILE_IDS;
use pm_directory::DirectoryEntry;
use pm_header::Header;
use std::alloc::Global;

/// The bound below which an entry leads to ids, by the entries after it.
fn bound_behind(entries: &[DirectoryEntry], bound: u64) -> u64
    ensures { result ≡ bound_of bound entries.now }
{
    match entries.first() {
        Some(next) => next.id,
        None => bound,
    }
}

/// An id of an entry that is below `from`, or isn't below `bound`.
fn stray(entry: DirectoryEntry, from: u64, bound: u64) -> Option<u64>
    ensures { result ≡ stray_of from bound entry }
{
    if entry.id < from {
        Some(entry.id)
    } else if entry.id >= bound || u64::from(entry.run) > bound - entry.id {
        Some(entry.id.max(bound))
    } else {
        None
    }
}

/// The least id of the entries that is below `from`, or isn't below `bound`.
fn least_stray(entries: &[DirectoryEntry], from: u64, bound: u64) -> Option<u64>
    ensures { result ≡ stray_id from bound entries.now }
{
    for entry in entries {
        if let Some(id) = stray(*entry, from, bound) {
            return Some(id);
        }
    }
    None
}

/// Checks that the ids of the entries are from `from` on and below `bound`.
fn check_between(entries: &[DirectoryEntry], from: u64, bound: u64) -> Result<(), ArchiveFault>
    ensures { result ≡ stray_fault (stray_id from bound entries.now) }
{
    match least_stray(entries, from, bound) {
        Some(id) => Err(ArchiveFault::Order(id)),
        None => Ok(()),
    }
}

/// The entries of the leaf directory that an entry names, if their ids are below the bound.
#[tactic(auto, unfolding(crate::specs::Reading::leaf_at))]
fn leaf_of<B: Bytes>(
    alloc: Global,
    source: &mut B,
    header: &Header,
    entry: DirectoryEntry,
    bound: u64,
) -> Result<Vec<DirectoryEntry>, ArchiveFault>
    requires { ArePlaced (B.count source.old) header.now }
    ensures source { Keeps B.count B.holds B.unchanged source.old source.new }
    ensures leaf { (bytes : List ℕ) → B.holds source.new bytes → GivesUnless IsOutside (λ v. v.items) result (leaf_at bytes header.now entry bound) }
    ensures ascending { IfOk result (λ v. IsAscending v.items) }
    ensures read { result ≡ Err ArchiveFault.Read → B.failed source.old source.new }
    ensures memory { result ≡ Err ArchiveFault.Memory → LiesIn header.now.leaves entry }
    ensures inside { OnOk result (LiesIn header.now.leaves entry) }
{
    let entries = directory_of(alloc, source, header, entry)?;
    check_between(&entries, entry.id, bound)?;
    Ok(entries)
}

/// Adds a tile entry.
#[tactic(auto, unfolding(crate::specs::Reading::tile_at))]
fn push_tile(
    header: &Header,
    entry: DirectoryEntry,
    tiles: &mut Vec<DirectoryEntry>,
) -> Result<(), ArchiveFault>
    ensures tile { GivesUnless IsOutside (λ done. tiles.new.items) result (behind tiles.old.items (tile_at header.now entry)) }
    ensures read { result ≢ Err ArchiveFault.Read }
    ensures memory { result ≡ Err ArchiveFault.Memory → LiesIn header.now.tiles entry }
    ensures inside { OnOk result (LiesIn header.now.tiles entry) }
{
    if !lies_in(header.tiles, entry) {
        return Err(ArchiveFault::Place(entry.id));
    }
    match tiles.push(entry) {
        Ok(()) => Ok(()),
        Err(_) => Err(ArchiveFault::Memory),
    }
}

/// Adds what an entry lists; `more` is the number of levels of leaf directories that may follow.
#[cycle(listing)]
fn push_listed<B: Bytes>(
    alloc: Global,
    source: &mut B,
    header: &Header,
    entry: DirectoryEntry,
    bound: u64,
    more: u8,
    tiles: &mut Vec<DirectoryEntry>,
) -> Result<(), ArchiveFault>
    requires { ArePlaced (B.count source.old) header.now }
    ensures source { Keeps B.count B.holds B.unchanged source.old source.new }
    ensures listed { (bytes : List ℕ) → B.holds source.new bytes
        → GivesUnless IsOutside (λ done. tiles.new.items) result (behind tiles.old.items (lists_at bytes header.now more entry bound)) }
    ensures read { result ≡ Err ArchiveFault.Read → B.failed source.old source.new }
    ensures depth { entry.run ≡ 0 → more ≡ 0 → result ≡ Err ArchiveFault.Depth }
    ensures memory { result ≡ Err ArchiveFault.Memory → LiesInside header.now (Some entry) }
    ensures inside { OnOk result (LiesInside header.now (Some entry)) }
{
    if entry.run > 0 {
        return push_tile(header, entry, tiles);
    }
    if more == 0 {
        return Err(ArchiveFault::Depth);
    }
    let entries = leaf_of(alloc, source, header, entry, bound)?;
    push_each(alloc, source, header, &entries, bound, more - 1, tiles)
}

/// Adds what the entries list, one after the other.
#[cycle(listing)]
fn push_each<B: Bytes>(
    alloc: Global,
    source: &mut B,
    header: &Header,
    entries: &[DirectoryEntry],
    bound: u64,
    more: u8,
    tiles: &mut Vec<DirectoryEntry>,
) -> Result<(), ArchiveFault>
    requires { ArePlaced (B.count source.old) header.now }
    ensures source { Keeps B.count B.holds B.unchanged source.old source.new }
    ensures listed { (bytes : List ℕ) → B.holds source.new bytes
        → GivesUnless IsOutside (λ done. tiles.new.items) result (behind tiles.old.items (each_at (lists_at bytes header.now more) bound entries.now)) }
    ensures read { result ≡ Err ArchiveFault.Read → B.failed source.old source.new }
    ensures memory { result ≡ Err ArchiveFault.Memory → LiesInside header.now (slice_get entries.now 0) }
{
    for (i, entry) in entries.iter().enumerate() {
        let bound = bound_behind(&entries[i + 1..], bound);
        push_listed(alloc, source, header, *entry, bound, more, tiles)?;
    }
    Ok(())
}

/// The tile entries of a root directory and its leaf directories, or the first fault.
pub(crate) fn entries_below<B: Bytes>(
    alloc: Global,
    source: &mut B,
    header: &Header,
    root: &[DirectoryEntry],
) -> Result<Vec<DirectoryEntry>, ArchiveFault>
    requires { ArePlaced (B.count source.old) header.now }
    ensures source { Keeps B.count B.holds B.unchanged source.old source.new }
    ensures first { (bytes : List ℕ) → B.holds source.new bytes → GivesUnless IsOutside (λ v. v.items) result (list_at bytes header.now root.now) }
    ensures read { result ≡ Err ArchiveFault.Read → B.failed source.old source.new }
    ensures memory { result ≡ Err ArchiveFault.Memory → LiesInside header.now (slice_get root.now 0) }
{
    let mut tiles = Vec::new(alloc);
    push_each(
        alloc,
        source,
        header,
        root,
        TILE_IDS,
        MAX_LEAF_LEVELS,
        &mut tiles,
    )?;
    Ok(tiles)
}
