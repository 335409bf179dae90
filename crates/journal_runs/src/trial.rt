//! The state of a script.
use edit_journal::{Journal, JournalPosition};
use sector_disk::{FailingCalls, FaultyDisk, MemoryDisk};
use std::alloc::{AllocError, Global};
use std::mem;

/// A disk, the disk that was stopped last if one was, the journal that was recovered last, and the mark in it.
#[derive(Drop)]
pub struct Trial {
    pub(crate) disk: FaultyDisk<MemoryDisk>,
    pub(crate) stopped: Option<MemoryDisk>,
    pub(crate) journal: Journal,
    pub(crate) mark: JournalPosition,
}

/// A journal of one place.
const LEAST: Journal = Journal {
    first: 0,
    places: 1,
    place: 0,
    edits: 0,
    used: 0,
    last: 0,
};

/// A disk whose calls don't fail.
fn sound(disk: MemoryDisk) -> FaultyDisk<MemoryDisk> {
    FaultyDisk::new(disk, FailingCalls::OneNotMade(0))
}

impl Trial {
    pub fn new(alloc: Global) -> Result<Trial, AllocError> {
        Ok(Trial {
            disk: sound(MemoryDisk::new(alloc, 0)?),
            stopped: None,
            journal: LEAST,
            mark: JournalPosition { place: 0, edits: 0 },
        })
    }

    /// Replaces the disk by one whose calls don't fail.
    pub(crate) fn replace(&mut self, disk: MemoryDisk) {
        drop(mem::replace(&mut self.disk, sound(disk)));
    }

    /// Takes the disk out, and leaves one without sectors.
    pub(crate) fn take(&mut self, alloc: Global) -> Result<MemoryDisk, AllocError> {
        let empty = sound(MemoryDisk::new(alloc, 0)?);
        Ok(mem::replace(&mut self.disk, empty).into_disk())
    }

    /// Has these calls of the disk fail, counted from now on.
    pub(crate) fn set_failing(
        &mut self,
        alloc: Global,
        failing: FailingCalls,
    ) -> Result<(), AllocError> {
        let disk = self.take(alloc)?;
        drop(mem::replace(&mut self.disk, FaultyDisk::new(disk, failing)));
        Ok(())
    }
}
