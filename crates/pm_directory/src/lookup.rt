//! Finds the entry of an id.

ghost use Rattle.std.specs.Prelude.{◌≡◌, ◌≤◌, ◌↔◌, length, take, IsTrue, IfSome, IfNone};
ghost use Rattle.pm_directory.specs.Directory.{IsAscending};
ghost use Rattle.pm_directory.specs.Lookup.{up_to, IsLastUpTo, LeadsTo};
ghost use Rattle.pm_directory.specs.declared.entry.DirectoryEntry.{DirectoryEntry};

use crate::entry::DirectoryEntry;

/// The number of entries whose id is at most this one.
fn count_up_to(entries: &[DirectoryEntry], id: u64) -> usize
    requires { IsAscending entries.now }
    ensures within { result ≤ length entries.now }
    ensures front { up_to id entries.now ≡ take result entries.now }
{
    entries.partition_point(|entry| entry.id <= id)
}

/// Whether the entry names a leaf directory, or its run has the id.
fn leads_to(entry: DirectoryEntry, id: u64) -> bool
    requires { entry.id ≤ id }
    ensures { IsTrue result ↔ LeadsTo id entry }
{
    entry.run == 0 || id - entry.id < u64::from(entry.run)
}

/// The entry that leads to a tile (PMTiles 3, 4.1): the last one whose id is at most the tile's, if it names a leaf directory or its
/// run has the tile. It is a binary search and allocates nothing.
pub fn find(entries: &[DirectoryEntry], id: u64) -> Option<DirectoryEntry>
    requires { IsAscending entries.now }
    ensures found { IfSome result (λ entry. IsLastUpTo id entries.now entry × LeadsTo id entry) }
    ensures none { IfNone result ((entry : DirectoryEntry) → IsLastUpTo id entries.now entry → ¬ LeadsTo id entry) }
{
    let front = &entries[..count_up_to(entries, id)];
    let entry = *front.last()?;
    if leads_to(entry, id) {
        Some(entry)
    } else {
        None
    }
}
