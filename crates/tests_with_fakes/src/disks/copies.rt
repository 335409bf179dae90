//! A copy of a disk that another process publishes to meanwhile: after each count of reads it is of one moment, or refused.
ghost use Rattle.sector_disk.specs.Disk.{all_zeros};
ghost use Rattle.sector_disk.specs.Disk.History.{begun};

use super::steps::{read, writes};
use crate::wanted::same;
use disk_copy::{AnyMoments, CopyFault, SharedDisk, copy_disk};
use edit_journal::part_sector;
use generations::{Root, format, install};
use sector_disk::{DiskFault, Faults, MemoryDisk, Sectors};
use std::alloc::Global;

/// A disk to which another process publishes: its first reads are of one disk, and the later ones of another.
#[derive(Drop)]
struct MovingDisk {
    before: MemoryDisk,
    after: MemoryDisk,
    /// How many reads are of the disk before.
    left: u64,
    faults: Faults,
}

impl Sectors for MovingDisk {
    ghost honest = { λ _. ⊥ };

    ghost history = { λ _. begun all_zeros };

    ghost sectors = { λ _. 64 };

    ghost faults = { λ disk. disk.faults.count };

    fn count(&self) -> u64 {
        64
    }

    fn read(&mut self, at: u64, into: &mut [u8; 512]) -> Result<(), DiskFault> {
        let found = if self.left > 0 {
            self.left -= 1;
            read(&mut self.before, at)
        } else {
            read(&mut self.after, at)
        };
        let outcome = match found {
            Some(bytes) => {
                *into = bytes;
                Ok(())
            }
            None => Err(DiskFault),
        };
        self.faults.record(outcome)
    }

    fn write(&mut self, _at: u64, _from: &[u8; 512]) -> Result<(), DiskFault> {
        self.faults.record(Err(DiskFault))
    }

    fn sync(&mut self) -> Result<(), DiskFault> {
        self.faults.record(Err(DiskFault))
    }
}

/// Writes the record of the edit after the published ones. It says whether that succeeds.
fn edits(disk: &mut MemoryDisk, published: u8) -> bool {
    let number = u64::from(published) + 1;
    writes(
        disk,
        2 + number,
        &part_sector(1, number, &[published; 100], 0),
    )
}

/// Publishes one edit more, with a snapshot of one sector. It says whether that succeeds.
fn publishes(disk: &mut MemoryDisk, generation: u8) -> bool {
    let number = u64::from(generation);
    let root = Root {
        generation: number,
        edits: number,
        journal_at: number,
        snapshot_len: 512,
        archive_len: 0,
    };
    writes(disk, 19 + number % 2 * 22, &[generation; 512])
        && disk.count() >= 3
        && install(disk, root).is_ok()
        && edits(disk, generation)
}

/// A disk of 64 sectors after one edit, and so many publications with an edit after each.
fn published(alloc: Global, generations: u8) -> Option<MemoryDisk> {
    let Ok(mut disk) = MemoryDisk::new(alloc, 64) else {
        return None;
    };
    if format(&mut disk).is_err() || !edits(&mut disk, 0) {
        return None;
    }
    for before in 0..generations {
        if !publishes(&mut disk, before + 1) {
            return None;
        }
    }
    Some(disk)
}

/// Whether one disk has these sectors of the other, and else zeros.
fn has_only(copy: &mut MemoryDisk, disk: &mut MemoryDisk, named: &[u64]) -> bool {
    for at in 0..64 {
        let wanted = if named.contains(&at) {
            read(disk, at)
        } else {
            Some([0; 512])
        };
        if read(copy, at) != wanted {
            return false;
        }
    }
    true
}

/// What a copy comes to.
#[derive(Clone, Copy, Debug, PartialEq, Eq)]
enum Outcome {
    /// It is of the disk before the publication: the format, the root of generation 1, its area, and the record of edit 2.
    Before,
    /// It is of the disk after it, with the root of generation 2 and the record of edit 3.
    After,
    /// It is refused.
    Moved,
    /// It is something else.
    Other,
}

/// What a copy comes to where so many of its reads are made before a publication, and the others after it.
fn outcome_after(alloc: Global, reads: u64) -> Outcome {
    let (Some(before), Some(after), Ok(mut into)) = (
        published(alloc, 1),
        published(alloc, 2),
        MemoryDisk::new(alloc, 64),
    ) else {
        return Outcome::Other;
    };
    let moving = MovingDisk {
        before,
        after,
        left: reads,
        faults: Faults::none(),
    };
    let mut shared: SharedDisk<MovingDisk, AnyMoments> = SharedDisk::new(moving);
    let copied = copy_disk(alloc, &mut shared, &mut into);
    let mut disk = shared.into_disk();
    let outcome = match copied {
        Ok(2) if has_only(&mut into, &mut disk.before, &[0, 2, 41, 4]) => Outcome::Before,
        Ok(3) if has_only(&mut into, &mut disk.after, &[0, 1, 19, 5]) => Outcome::After,
        Err(CopyFault::Moved) => Outcome::Moved,
        _ => Outcome::Other,
    };
    drop(disk);
    drop(into);
    outcome
}

/// What it is to come to. The newer root's sector is the second one that is read: if that is after the publication, the copy is of the disk
/// after it. If the last look at that sector, the sixteenth read, is before it, the copy is of the disk before. Else it is refused.
fn wanted_after(reads: u64) -> Outcome {
    match reads {
        0..=1 => Outcome::After,
        2..=15 => Outcome::Moved,
        _ => Outcome::Before,
    }
}

/// The first count of reads with another outcome, if there is one.
fn other_count(alloc: Global) -> Option<u64> {
    for reads in 0..20 {
        if outcome_after(alloc, reads) != wanted_after(reads) {
            return Some(reads);
        }
    }
    None
}

#[test]
fn a_copy_is_of_one_moment(rt: HostRuntime) {
    same(&rt, &other_count(rt.alloc()), &None);
}
