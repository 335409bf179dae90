//! Exports of the archive on a closed disk.
ghost use Rattle.std.specs.Prelude.{◌≤◌, ◌+◌};
ghost use Rattle.generations.specs.Areas.{sectors_of};

use archive_export::{ArchivePlace, copy_archive, find_archive};
use script_bytes::{Answer, spelled_briefly};
use script_disks::{Narrow, Narrowness, WIDE};
use sector_disk::Sectors;
use std::alloc::Global;

/// Copies an archive to a writer with room for a number of bytes. Tells the outcome, and the bytes that were written.
fn copy<D: Sectors>(
    alloc: Global,
    disk: &mut D,
    archive: ArchivePlace,
    room: usize,
    answer: &mut Answer,
)
    requires on_disk { archive.first + sectors_of archive.len ≤ D.sectors disk.old }
{
    let narrowness = Narrowness {
        room,
        fails: false,
        ..WIDE
    };
    let mut writer = Narrow::new(alloc, narrowness);
    let outcome = copy_archive(disk, archive, &mut writer);
    write!(answer, "{outcome:?} ");
    answer.add(spelled_briefly(alloc, &writer.taken));
}

/// Finds the archive of a disk and copies it.
pub(crate) fn export<D: Sectors>(alloc: Global, disk: &mut D, room: usize, answer: &mut Answer) {
    match find_archive(disk) {
        Ok(archive) => copy(alloc, disk, archive, room, answer),
        Err(fault) => write!(answer, "Err({fault:?})"),
    }
}
