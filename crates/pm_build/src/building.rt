//! Writes what is stored before the contents of an archive.

ghost use Rattle.pm_header.specs.declared.header.TheConstants.{HEADER_BYTES};
ghost use Rattle.std.specs.Prelude.{◌≡◌, ℕ, ◌+◌, ◌*◌, ◌^◌, ◌<◌, ◌≤◌, ◌++◌, [], List, length, IfOk, map};
ghost use Rattle.std.specs.List.{concat};
ghost use Rattle.pm_build.specs.Tiles.{AreTiles};
ghost use Rattle.pm_build.specs.Runs.{AreLongestRuns, tiles_in};
ghost use Rattle.pm_build.specs.Joined.{ArePlaces, run_views};
ghost use Rattle.pm_build.specs.Different.{contents_of};
ghost use Rattle.pm_build.specs.Placed.{ArePlaced};
ghost use Rattle.pm_metadata.specs.Archive.{IsMetadata};
ghost use Rattle.pm_build.specs.Built.{tile_content};
ghost use Rattle.pm_build.specs.Laid.{IsFront, AreLaidOut, AreZooms, header_for, lengths_of};
ghost use Rattle.pm_build.specs.Vector.{IsVectorArchive};

use crate::directories::{Directories, write_directories};
use crate::header::{Counts, Lengths, header_of, zoom_of};
use crate::index::ContentIndex;
use crate::limit::MAX_ENTRIES;
use crate::placing::entries_of;
use crate::run::Run;
use crate::runs::end_of;
use pm_directory::DirectoryEntry;
use pm_header::{HEADER_BYTES, Header};
use std::alloc::{AllocError, Global};

/// The header and the sections before the contents, one after the other.
fn joined(
    alloc: Global,
    header: &Header,
    directories: &Directories,
    metadata: &[u8],
) -> Result<Vec<u8>, AllocError>
    requires { HEADER_BYTES + length directories.now.root.items + length metadata.now + length directories.now.leaves.items < 2 ^ 64 }
    ensures { IfOk result (λ front. IsFront front.items header.now directories.now.root.items metadata.now directories.now.leaves.items) }
{
    let sections = directories.root.len() + metadata.len() + directories.leaves.len();
    let mut front = Vec::with_capacity(alloc, HEADER_BYTES + sections)?;
    front.extend_from_slice(&header.to_bytes())?;
    front.extend_from_slice(&directories.root)?;
    front.extend_from_slice(metadata)?;
    front.extend_from_slice(&directories.leaves)?;
    Ok(front)
}

/// The zooms of the first and of the last tile.
fn zooms_of(runs: &[Run], contents: &ContentIndex) -> (u8, u8)
    requires some { 0 < length runs.now }
    requires tiles { AreTiles (tiles_in (run_views contents.now.contents runs.now)) }
    requires longest { AreLongestRuns (tiles_in (run_views contents.now.contents runs.now)) (run_views contents.now.contents runs.now) }
    ensures { AreZooms (tiles_in (run_views contents.now.contents runs.now)) result.0 result.1 }
{
    let first = zoom_of(runs[0].first);
    let last = zoom_of(end_of(runs) - 1);
    (first, last)
}

/// The header of the archive of these runs.
fn header_for_runs(
    runs: &[Run],
    addressed: u64,
    contents: &ContentIndex,
    directories: &Directories,
    metadata: &[u8],
) -> Header
    requires some { 0 < length runs.now }
    requires tiles { AreTiles (tiles_in (run_views contents.now.contents runs.now)) }
    requires longest { AreLongestRuns (tiles_in (run_views contents.now.contents runs.now)) (run_views contents.now.contents runs.now) }
    requires addressed { addressed ≡ length (tiles_in (run_views contents.now.contents runs.now)) }
    requires fits { HEADER_BYTES + length directories.now.root.items + length metadata.now + length directories.now.leaves.items < 2 ^ 64 }
    ensures { (min_zoom max_zoom : ℕ) × AreZooms (tiles_in (run_views contents.now.contents runs.now)) min_zoom max_zoom
        × (result ≡ header_for (lengths_of directories.now.root.items metadata.now directories.now.leaves.items (concat contents.now.contents))
        record {
          addressed = length (tiles_in (run_views contents.now.contents runs.now));
          entries = length runs.now;
          contents = length contents.now.contents;
        } min_zoom max_zoom) }
{
    let lengths = Lengths {
        root: directories.root.len() as u64,
        metadata: metadata.len() as u64,
        leaves: directories.leaves.len() as u64,
        tiles: contents.total() as u64,
    };
    let counts = Counts {
        addressed,
        entries: runs.len() as u64,
        contents: contents.count() as u64,
    };
    let (min_zoom, max_zoom) = zooms_of(runs, contents);
    header_of(lengths, counts, min_zoom, max_zoom)
}

/// What is stored before the contents, by the entries of the runs.
fn front_of(
    alloc: Global,
    runs: &[Run],
    addressed: u64,
    contents: &ContentIndex,
    entries: &[DirectoryEntry],
    metadata: &[u8],
) -> Result<Vec<u8>, AllocError>
    requires some { 0 < length runs.now }
    requires tiles { AreTiles (tiles_in (run_views contents.now.contents runs.now)) }
    requires longest { AreLongestRuns (tiles_in (run_views contents.now.contents runs.now)) (run_views contents.now.contents runs.now) }
    requires addressed { addressed ≡ length (tiles_in (run_views contents.now.contents runs.now)) }
    requires placed { ArePlaced (tiles_in (run_views contents.now.contents runs.now)) entries.now contents.now.contents }
    requires few { length entries.now ≤ MAX_ENTRIES }
    requires count { length entries.now ≡ length runs.now }
    requires metadata { IsMetadata metadata.now }
    ensures archive { IfOk result (λ front. IsVectorArchive (front.items ++ concat contents.now.contents) metadata.now
        (tile_content (tiles_in (run_views contents.now.contents runs.now)))) }
    ensures header { IfOk result (λ front.
        AreLaidOut (front.items ++ concat contents.now.contents) (tiles_in (run_views contents.now.contents runs.now)) metadata.now) }
    ensures size { IfOk result (λ front. length front.items ≤ HEADER_BYTES + length metadata.now + 64 * length entries.now) }
    ensures least { IfOk result (λ front. HEADER_BYTES + length metadata.now ≤ length front.items) }
{
    let directories = write_directories(alloc, entries)?;
    let header = header_for_runs(runs, addressed, contents, &directories, metadata);
    joined(alloc, &header, &directories, metadata)
}

/// What is stored before the contents in the archive of these runs, which are the longest ones of their tiles, with this metadata.
pub(crate) fn front_of_runs(
    alloc: Global,
    runs: &[Run],
    addressed: u64,
    contents: &ContentIndex,
    metadata: &[u8],
) -> Result<Vec<u8>, AllocError>
    requires some { 0 < length runs.now }
    requires tiles { AreTiles (tiles_in (run_views contents.now.contents runs.now)) }
    requires longest { AreLongestRuns (tiles_in (run_views contents.now.contents runs.now)) (run_views contents.now.contents runs.now) }
    requires addressed { addressed ≡ length (tiles_in (run_views contents.now.contents runs.now)) }
    requires few { length runs.now ≤ MAX_ENTRIES }
    requires places { ArePlaces contents.now.contents runs.now }
    requires contents { contents.now.contents ≡ contents_of (tiles_in (run_views contents.now.contents runs.now)) }
    requires metadata { IsMetadata metadata.now }
    ensures archive { IfOk result (λ front. IsVectorArchive (front.items ++ concat contents.now.contents) metadata.now
        (tile_content (tiles_in (run_views contents.now.contents runs.now)))) }
    ensures header { IfOk result (λ front.
        AreLaidOut (front.items ++ concat contents.now.contents) (tiles_in (run_views contents.now.contents runs.now)) metadata.now) }
    ensures size { IfOk result (λ front. length front.items ≤ HEADER_BYTES + length metadata.now + 64 * length runs.now) }
    ensures least { IfOk result (λ front. HEADER_BYTES + length metadata.now ≤ length front.items) }
{
    let entries = entries_of(alloc, runs, contents)?;
    front_of(alloc, runs, addressed, contents, &entries, metadata)
}
