//! Encodes the directories of an archive.

ghost use Rattle.std.specs.Prelude.{◌≡◌, ◌+◌, ◌*◌, ◌<◌, ◌≤◌, ◌++◌, List, length, OnOk, IfOk};
ghost use Rattle.std.specs.List.{AllByRecursion};
ghost use Rattle.pm_directory.specs.declared.entry.DirectoryEntry.{DirectoryEntry};
ghost use Rattle.pm_directory.specs.Directory.{IsAscending, IsEntry, HasEnd};
ghost use Rattle.pm_build.specs.Leaves.{AreLeaves, AreDirectories};

use crate::limit::MAX_ENTRIES;
use pm_directory::{DirectoryEntry, write_directory};
use std::alloc::{AllocError, Global};

/// The most tile entries of a root directory, and of a leaf directory.
const DIRECTORY_ENTRIES: usize = 512;

/// The bytes of the directories of an archive.
#[derive(Drop)]
pub(crate) struct Directories {
    /// The root directory.
    pub(crate) root: Vec<u8>,
    /// The leaf directories, one after the other. There may be none.
    pub(crate) leaves: Vec<u8>,
}

/// Leaf directories, and the entries that name them.
#[derive(Drop)]
struct Leaves {
    names: Vec<DirectoryEntry>,
    bytes: Vec<u8>,
}

/// Adds a leaf directory of these entries.
fn push_leaf(
    alloc: Global,
    leaves: &mut Leaves,
    entries: &[DirectoryEntry],
) -> Result<(), AllocError>
    requires some { 0 < length entries.now }
    requires few { length entries.now ≤ DIRECTORY_ENTRIES }
    requires ascending { IsAscending entries.now }
    requires each { AllByRecursion IsEntry entries.now }
    requires ends { AllByRecursion HasEnd entries.now }
    ensures count { OnOk result (length leaves.new.names.items ≡ length leaves.old.names.items + 1) }
    ensures leaves { OnOk result ((before : List DirectoryEntry) → AreLeaves leaves.old.bytes.items leaves.old.names.items before
        → AreLeaves leaves.new.bytes.items leaves.new.names.items (before ++ entries.now)) }
{
    let bytes = write_directory(alloc, entries)?;
    let name = DirectoryEntry {
        id: entries[0].id,
        run: 0,
        length: bytes.len() as u32,
        offset: leaves.bytes.len() as u64,
    };
    leaves.bytes.extend_from_slice(&bytes)?;
    leaves.names.push(name)?;
    Ok(())
}

/// Leaf directories of these entries: 512 in each, the rest in the last.
fn write_leaves(alloc: Global, entries: &[DirectoryEntry]) -> Result<Leaves, AllocError>
    requires ascending { IsAscending entries.now }
    requires each { AllByRecursion IsEntry entries.now }
    requires ends { AllByRecursion HasEnd entries.now }
    ensures leaves { IfOk result (λ leaves. AreLeaves leaves.bytes.items leaves.names.items entries.now) }
    ensures few { IfOk result (λ leaves. DIRECTORY_ENTRIES * length leaves.names.items < length entries.now + DIRECTORY_ENTRIES) }
{
    let mut leaves = Leaves {
        names: Vec::new(alloc),
        bytes: Vec::new(alloc),
    };
    let mut rest = entries;
    while rest.len() > 0 {
        let (leaf, behind) = rest.split_at(rest.len().min(DIRECTORY_ENTRIES));
        push_leaf(alloc, &mut leaves, leaf)?;
        rest = behind;
    }
    Ok(leaves)
}

/// The directories of these tile entries: up to 512 in the root, more in leaf directories of 512 each.
pub(crate) fn write_directories(
    alloc: Global,
    entries: &[DirectoryEntry],
) -> Result<Directories, AllocError>
    requires some { 0 < length entries.now }
    requires few { length entries.now ≤ MAX_ENTRIES }
    requires ascending { IsAscending entries.now }
    requires each { AllByRecursion IsEntry entries.now }
    requires ends { AllByRecursion HasEnd entries.now }
    ensures directories { IfOk result (λ d. AreDirectories d.root.items d.leaves.items entries.now) }
    ensures root { IfOk result (λ d. length d.root.items ≤ 2 + 29 * DIRECTORY_ENTRIES) }
    ensures size { IfOk result (λ d. length d.root.items + length d.leaves.items ≤ 64 * length entries.now) }
{
    if entries.len() <= DIRECTORY_ENTRIES {
        let root = write_directory(alloc, entries)?;
        return Ok(Directories {
            root,
            leaves: Vec::new(alloc),
        });
    }
    let leaves = write_leaves(alloc, entries)?;
    let root = write_directory(alloc, &leaves.names)?;
    Ok(Directories {
        root,
        leaves: leaves.bytes,
    })
}
