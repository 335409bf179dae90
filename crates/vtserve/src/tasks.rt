//! What is done once with a disk in a file: copies, exports and upgrades.

use crate::copying::copy_beside;
use crate::exporting::export;
use crate::fault::{Cause, CommandFault, Paths, with_cause};
use crate::files::{OpenedFile, opened_file, shared_disk};
use crate::noted::Noted;
use crate::printing::print_number;
use disk_copy::{AnyMoments, SharedDisk};
use file_disk::{FileDisk, Start};
use generations::LAST_VERSION;
use sector_disk::Sectors;
use std::cell::Cell;
use tile_service::Service;

/// What is done with a disk.
#[derive(Clone, Copy)]
pub(crate) enum Task {
    /// The archive that was published last is written into a file, unless that is the disk's, and how many bytes it has is said. Only the
    /// disk's format, its roots and the archive are read.
    Export,
    /// It is upgraded to the last version of the format, and which one that is is said.
    Upgrade,
}

impl Task {
    /// Whether it writes to the disk.
    fn writes(self) -> bool {
        match self {
            Task::Export => false,
            Task::Upgrade => true,
        }
    }
}

/// Upgrades a disk.
fn upgrade<D: Sectors + Drop>(rt: &HostRuntime, disk: &mut D) -> Result<(), CommandFault> {
    match Service::upgrade(disk) {
        Ok(()) => print_number(rt, "version ", u64::from(LAST_VERSION), ""),
        Err(fault) => Err(CommandFault::Store(fault)),
    }
}

/// Does a task with the disk in a file, whatever the file had.
pub(crate) fn done_with_file<S: Start>(
    rt: &HostRuntime,
    paths: Paths<'_>,
    task: Task,
    start: S,
) -> Result<(), CommandFault> {
    let OpenedFile { file, place } = opened_file(rt, paths.path, task.writes())?;
    let cause: Cell<Cause> = Cell::new(None);
    let mut disk = FileDisk::new(Noted::unwatched(file, &cause), place.bytes, start);
    let outcome = match task {
        Task::Export => export(rt, &mut disk, place.identity, paths.goal),
        Task::Upgrade => upgrade(rt, &mut disk),
    };
    drop(disk);
    with_cause(outcome, &cause)
}

/// Copies the disk in a file, which another process may serve meanwhile, into a file that doesn't exist, and says how many edits it has.
pub(crate) fn copy_file<S: Start>(
    rt: &HostRuntime,
    paths: Paths<'_>,
    start: S,
) -> Result<(), CommandFault> {
    let (file, mode) = shared_disk(rt, paths.path)?;
    let bytes = file.bytes;
    let cause: Cell<Cause> = Cell::new(None);
    let file = FileDisk::new(Noted::unwatched(file, &cause), bytes, start);
    let mut disk: SharedDisk<_, AnyMoments> = SharedDisk::new(file);
    let outcome = copy_beside(rt, &mut disk, paths.goal, mode);
    drop(disk);
    with_cause(outcome, &cause)
}
