//! Copies of a disk as of one moment.

use crate::exporting::settle_name;
use crate::fault::{Cause, CommandFault};
use crate::noted::Noted;
use crate::printing::print_number;
use disk_copy::{CopyFault, SharedSectors, copy_disk};
use file_disk::{FileDisk, SystemFile, Zeros};
use generations::{Root, StoreFault, read_root};
use sector_disk::SECTOR_BYTES;
use std::cell::Cell;
use std::fs::{self, File, OpenOptions};
use std::io::{self, ErrorKind};
use std::os::unix::fs::OpenOptionsExt;

/// How many times a copy is begun at most, where publications pass it by.
const MAX_TRIES: u64 = 16;

/// Copies a disk into a new file, and syncs it. The number of the last edit.
fn copy_into<D: SharedSectors>(
    rt: &HostRuntime,
    disk: &mut D,
    file: File,
    bytes: u64,
) -> Result<u64, CommandFault> {
    if let Err(error) = file.set_len(bytes) {
        return Err(CommandFault::Output(Some(error)));
    }
    let cause: Cell<Cause> = Cell::new(None);
    let file = Noted::unwatched(SystemFile::new(file), &cause);
    let mut into = FileDisk::new(file, bytes, Zeros);
    let copied = copy_disk(rt.alloc(), disk, &mut into);
    drop(into);
    match copied {
        Ok(last) => Ok(last),
        Err(CopyFault::Store(fault)) => Err(CommandFault::Store(fault)),
        Err(CopyFault::Moved) => Err(CommandFault::Busy),
        Err(CopyFault::Write) => Err(CommandFault::Output(cause.get())),
    }
}

/// Whether a disk has another root by now: then what was read of the journal since may be of two generations, and damaged only as such.
fn has_moved<D: SharedSectors>(disk: &mut D, root: Root) -> bool {
    match read_root(disk) {
        Ok(found) => found.root != root,
        Err(_) => false,
    }
}

/// Copies a disk into a new file at a path, with these permissions. If it isn't copied, the file is removed.
fn copy_once<D: SharedSectors>(
    rt: &HostRuntime,
    disk: &mut D,
    part: &str,
    mode: u32,
) -> Result<u64, CommandFault> {
    let found = match read_root(disk) {
        Ok(found) => found,
        Err(fault) => return Err(CommandFault::Store(fault)),
    };
    let bytes = found.layout.sectors.saturating_mul(SECTOR_BYTES as u64);
    let mut how = OpenOptions::new();
    how.read(true)
        .write(true)
        .create_new(true)
        .mode(mode & 0o777);
    let file = match how.open(rt, part) {
        Ok(file) => file,
        Err(error) => return Err(CommandFault::Part(Some(error))),
    };
    let copied = copy_into(rt, disk, file, bytes);
    if copied.is_err() {
        let _ = fs::remove_file(rt, part);
    }
    match copied {
        Err(CommandFault::Store(StoreFault::Damaged(_))) if has_moved(disk, found.root) => {
            Err(CommandFault::Busy)
        }
        outcome => outcome,
    }
}

/// The same, begun anew while publications pass it by.
fn copy_anew<D: SharedSectors>(
    rt: &HostRuntime,
    disk: &mut D,
    part: &str,
    mode: u32,
) -> Result<u64, CommandFault> {
    for _ in 1..MAX_TRIES {
        match copy_once(rt, disk, part, mode) {
            Err(CommandFault::Busy | CommandFault::Store(StoreFault::Damaged(_))) => {}
            outcome => return outcome,
        }
    }
    copy_once(rt, disk, part, mode)
}

/// Refuses a path that leads to something.
fn check_absent(rt: &HostRuntime, path: &str) -> io::Result<()> {
    match fs::symlink_metadata(rt, path) {
        Ok(_) => Err(ErrorKind::AlreadyExists.into()),
        Err(error) if error.kind() == ErrorKind::NotFound => Ok(()),
        Err(error) => Err(error),
    }
}

/// Moves a file to a path that leads to nothing. It is linked and not renamed, since a link fails where something is, and a rename would
/// replace a file that appeared there a moment ago. A file system without hard links answers `EPERM` (FAT), `EOPNOTSUPP` or `ENOSYS`.
fn move_to_absent(rt: &HostRuntime, part: &str, goal: &str) -> io::Result<()> {
    match fs::hard_link(rt, part, goal) {
        Ok(()) => fs::remove_file(rt, part),
        Err(error) => match error.kind() {
            ErrorKind::PermissionDenied | ErrorKind::Unsupported => {
                check_absent(rt, goal)?;
                fs::rename(rt, part, goal)
            }
            _ => Err(error),
        },
    }
}

/// Copies a disk into a new file beside FILE, moves it to FILE, and says how many edits it has. A crash leaves no FILE or the whole copy.
pub(crate) fn copy_beside<D: SharedSectors>(
    rt: &HostRuntime,
    disk: &mut D,
    goal: &str,
    mode: u32,
) -> Result<(), CommandFault> {
    if let Err(error) = check_absent(rt, goal) {
        return Err(CommandFault::Output(Some(error)));
    }
    let Ok(part) = format!(in rt.alloc(); "{goal}.part") else {
        return Err(CommandFault::Store(StoreFault::Memory));
    };
    let last = copy_anew(rt, disk, part.as_str(), mode)?;
    let moved = move_to_absent(rt, part.as_str(), goal);
    settle_name(rt, part.as_str(), goal, moved)?;
    print_number(rt, "", last, " edits")
}
