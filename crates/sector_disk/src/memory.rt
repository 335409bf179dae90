//! A disk in memory, which can be asked what a crash leaves of it.
ghost use Rattle.std.specs.Prelude.{◌≡◌, ◌<◌, IfOk, IsOk, OnOk};
ghost use Rattle.sector_disk.specs.Asked.{MayWrite, OnlyReads};
ghost use Rattle.sector_disk.specs.Crash.{chosen};
ghost use Rattle.sector_disk.specs.Disk.{all_zeros, seen, Writes, Syncs, CountsFault};
ghost use Rattle.sector_disk.specs.Disk.History.{begun};
ghost use Rattle.sector_disk.specs.Views.{memory_history, memory_sectors, memory_faults};

use crate::disk_memory::DiskMemory;
use crate::faults::Faults;
use crate::{DiskFault, SECTOR_BYTES, Sectors};
use std::alloc::{AllocError, Global};
use std::collections::HashMap;

/// A disk in memory. It allocates only for the sectors that were written, and for each write since the last
/// sync. If an allocation fails, the write fails; a read and a sync never do. The time of a read or a write doesn't grow
/// with the disk, save that a write now and then makes room for the next ones.
#[derive(Drop)]
pub struct MemoryDisk {
    alloc: Global,
    count: u64,
    faults: Faults,
    kept: DiskMemory,
}

impl MemoryDisk {
    /// A disk of `count` sectors of zeros. It allocates nothing for them, so it can't fail.
    pub fn new(alloc: Global, count: u64) -> Result<MemoryDisk, AllocError>
        ensures made { IsOk result }
        ensures count { IfOk result (λ disk. ⟦<MemoryDisk as Sectors>⟧.sectors disk ≡ count) }
        ensures faults { IfOk result (λ disk. ⟦<MemoryDisk as Sectors>⟧.faults disk ≡ 0) }
        ensures honest { IfOk result ⟦<MemoryDisk as Sectors>⟧.honest }
        ensures zeros { IfOk result (λ disk. ⟦<MemoryDisk as Sectors>⟧.history disk ≡ begun all_zeros) }
    {
        Ok(MemoryDisk {
            alloc,
            count,
            faults: Faults::none(),
            kept: DiskMemory::new(alloc, HashMap::new(alloc)),
        })
    }

    /// The disk that a crash now leaves. The sectors that were written since the last sync take a number each, in
    /// ascending order: for 0, or if a number is missing, they have the bytes of that sync, and for j those of the
    /// j-th write since, or of the last one if there are fewer. It takes time by the sectors that were written.
    pub fn crash(&self, choice: &[u32]) -> Result<MemoryDisk, AllocError>
        ensures count { IfOk result (λ disk. ⟦<MemoryDisk as Sectors>⟧.sectors disk ≡ ⟦<MemoryDisk as Sectors>⟧.sectors self.now) }
        ensures faults { IfOk result (λ disk. ⟦<MemoryDisk as Sectors>⟧.faults disk ≡ 0) }
        ensures honest { IfOk result ⟦<MemoryDisk as Sectors>⟧.honest }
        ensures left { IfOk result (λ disk. ⟦<MemoryDisk as Sectors>⟧.history disk
            ≡ begun (chosen (⟦<MemoryDisk as Sectors>⟧.history self.now) choice.now)) }
    {
        let contents = self.kept.left_by(self.alloc, choice)?;
        Ok(MemoryDisk {
            alloc: self.alloc,
            count: self.count,
            faults: Faults::none(),
            kept: DiskMemory::new(self.alloc, contents),
        })
    }
}

impl Sectors for MemoryDisk {
    ghost honest = { λ _. Unit {0} };

    ghost history = { memory_history };

    ghost sectors = { memory_sectors };

    ghost faults = { memory_faults };

    fn count(&self) -> u64 {
        self.count
    }

    fn read(&mut self, at: u64, into: &mut [u8; SECTOR_BYTES]) -> Result<(), DiskFault>
        requires { at < memory_sectors self.old }
        ensures disk { OnlyReads memory_sectors ⟦<MemoryDisk as Sectors>⟧.honest memory_history self.old self.new }
        ensures faults { CountsFault result (memory_faults self.old) (memory_faults self.new) }
        ensures stays_honest { ⟦<MemoryDisk as Sectors>⟧.honest self.new }
        ensures gives { ⟦<MemoryDisk as Sectors>⟧.honest self.new → OnOk result (into.new ≡ seen (memory_history self.old) at) }
        ensures never_fails { IsOk result }
    {
        *into = self.kept.sector(at);
        Ok(())
    }

    fn write(&mut self, at: u64, from: &[u8; SECTOR_BYTES]) -> Result<(), DiskFault>
        requires { at < memory_sectors self.old }
        ensures disk { MayWrite memory_sectors ⟦<MemoryDisk as Sectors>⟧.honest self.old self.new }
        ensures faults { CountsFault result (memory_faults self.old) (memory_faults self.new) }
        ensures stays_honest { ⟦<MemoryDisk as Sectors>⟧.honest self.new }
        ensures writes { ⟦<MemoryDisk as Sectors>⟧.honest self.new → Writes result at from.now (memory_history self.old) (memory_history self.new) }
    {
        let outcome = self.kept.write(self.alloc, at, from);
        self.faults.record(outcome.map_err(|_| DiskFault))
    }

    fn sync(&mut self) -> Result<(), DiskFault>
        ensures disk { MayWrite memory_sectors ⟦<MemoryDisk as Sectors>⟧.honest self.old self.new }
        ensures faults { CountsFault result (memory_faults self.old) (memory_faults self.new) }
        ensures stays_honest { ⟦<MemoryDisk as Sectors>⟧.honest self.new }
        ensures syncs { ⟦<MemoryDisk as Sectors>⟧.honest self.new → Syncs result (memory_history self.old) (memory_history self.new) }
        ensures never_fails { IsOk result }
    {
        self.kept.sync(self.alloc);
        Ok(())
    }
}
