//! A leaf directory in memory.

ghost use Rattle.std.specs.Prelude.{◌≡◌, ◌↔◌, ℕ, ◌≤◌, List, Err, IfOk, OnOk, IsTrue};
ghost use Rattle.reader.specs.Reading.{GivesUnless};
ghost use Rattle.pm_directory.specs.declared.entry.DirectoryEntry.{DirectoryEntry};
ghost use Rattle.pm_directory.specs.Directory.{IsAscending};
ghost use Rattle.byte_source.specs.Source.{Keeps};
ghost use Rattle.pm_archive.specs.Sections.{end_of};
ghost use Rattle.pm_archive.specs.Entries.{LiesIn};
ghost use Rattle.pm_archive.specs.Reading.{directory_of_entry};
ghost use Rattle.pm_archive.specs.Answers.{IsOutside};
ghost use Rattle.pm_archive.specs.Looked.{leading_of};
ghost use Rattle.pm_archive.specs.Lookup.{LeafView, leaf_bytes};

use crate::fault::ArchiveFault;
use crate::reading::directory_of;
use byte_source::Bytes;
use pm_directory::{DirectoryEntry, find};
use pm_header::Header;
use std::alloc::Global;
use std::marker::Model;

/// The entry of a directory that leads to an id.
#[tactic(auto, unfolding(crate::specs::Looked::leading_of))]
pub(crate) fn leading(entries: &[DirectoryEntry], id: u64) -> Option<DirectoryEntry>
    requires { IsAscending entries.now }
    ensures { result ≡ leading_of id entries.now }
{
    find(entries, id)
}

/// A leaf directory, and the entry that names it.
#[derive(Drop)]
pub(crate) struct Leaf {
    entry: DirectoryEntry,
    entries: Vec<DirectoryEntry>,
}

impl Model for Leaf {
    ghost Value = { LeafView };

    ghost view = { λ l. record { entry = l.entry; entries = l.entries.items } };

    ghost invariant = { λ l. IsAscending l.entries.items };
}

impl Leaf {
    /// Reads the leaf directory that an entry names.
    pub(crate) fn read<B: Bytes>(
        alloc: Global,
        source: &mut B,
        header: &Header,
        entry: DirectoryEntry,
    ) -> Result<Leaf, ArchiveFault>
        requires { end_of header.now.leaves ≤ B.count source.old }
        ensures source { Keeps B.count B.holds B.unchanged source.old source.new }
        ensures entry { IfOk result (λ leaf. leaf.entry ≡ entry) }
        ensures inside { OnOk result (LiesIn header.now.leaves entry) }
        ensures directory { (bytes : List ℕ) → B.holds source.new bytes
            → GivesUnless IsOutside (λ leaf. leaf.entries) result (directory_of_entry bytes header.now entry) }
        ensures read { result ≡ Err ArchiveFault.Read → B.failed source.old source.new }
        ensures memory { result ≡ Err ArchiveFault.Memory → LiesIn header.now.leaves entry }
    {
        match directory_of(alloc, source, header, entry) {
            Ok(entries) => Ok(Leaf { entry, entries }),
            Err(fault) => Err(fault),
        }
    }

    /// Whether this entry names it.
    pub(crate) fn is_of(&self, entry: DirectoryEntry) -> bool
        ensures { IsTrue result ↔ (self.now.entry ≡ entry) }
    {
        self.entry == entry
    }

    /// Its stored length in bytes.
    pub(crate) fn len(&self) -> u32
        ensures { result ≡ leaf_bytes self.now }
    {
        self.entry.length
    }

    /// Its entry that leads to an id.
    pub(crate) fn leading(&self, id: u64) -> Option<DirectoryEntry>
        ensures { result ≡ leading_of id self.now.entries }
    {
        leading(&self.entries, id)
    }
}
