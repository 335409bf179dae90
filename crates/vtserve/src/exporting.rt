//! The published archive, written into a file.
ghost use Rattle.std.specs.Prelude.{◌≤◌, ◌+◌};
ghost use Rattle.generations.specs.Areas.{sectors_of};

use crate::fault::{Cause, CommandFault};
use crate::noted::NotedWriter;
use crate::place::{Identity, identity_of};
use crate::printing::print_number;
use archive_export::{ArchivePlace, CopyFault, copy_archive, find_archive};
use generations::StoreFault;
use map_server::sync_folder;
use sector_disk::Sectors;
use std::cell::Cell;
use std::fs::{self, File, OpenOptions, Permissions};
use std::io::{self, ErrorKind};
use std::os::unix::fs::{OpenOptionsExt, PermissionsExt};

/// Copies an archive of a disk into a file, and syncs it.
fn copy_into<D: Sectors>(
    disk: &mut D,
    archive: ArchivePlace,
    file: &mut File,
) -> Result<(), CommandFault>
    requires on_disk { archive.first + sectors_of archive.len ≤ D.sectors disk.old }
{
    let cause: Cell<Cause> = Cell::new(None);
    let mut into = NotedWriter {
        writer: &mut *file,
        cause: &cause,
    };
    match copy_archive(disk, archive, &mut into) {
        Ok(()) => {}
        Err(CopyFault::Device) => return Err(CommandFault::Store(StoreFault::Device)),
        Err(CopyFault::Write) => return Err(CommandFault::Output(cause.get())),
    }
    match file.sync_all() {
        Ok(()) => Ok(()),
        Err(error) => Err(CommandFault::Output(Some(error))),
    }
}

/// Has the name that a new file was given outlive a crash. If it wasn't given or the folder can't be synced, the file is removed at its
/// path before, `part`.
pub(crate) fn settle_name(
    rt: &HostRuntime,
    part: &str,
    goal: &str,
    named: io::Result<()>,
) -> Result<(), CommandFault> {
    let settled = match named {
        Ok(()) => sync_folder(rt, goal),
        Err(error) => Err(error),
    };
    match settled {
        Ok(()) => Ok(()),
        Err(error) => {
            let _ = fs::remove_file(rt, part);
            Err(CommandFault::Output(Some(error)))
        }
    }
}

/// The permissions of the regular file at a path, if there is a file. What isn't a regular file, a link among them, is refused, and so
/// is the disk.
fn replaced_permissions(
    rt: &HostRuntime,
    path: &str,
    disk: Identity,
) -> Result<Option<Permissions>, CommandFault> {
    match fs::symlink_metadata(rt, path) {
        Ok(metadata) if metadata.is_file() && identity_of(&metadata) != disk => {
            Ok(Some(metadata.permissions()))
        }
        Err(error) if error.kind() == ErrorKind::NotFound => Ok(None),
        Err(error) => Err(CommandFault::Output(Some(error))),
        Ok(_) => Err(CommandFault::Output(Some(io::Error::new(
            ErrorKind::InvalidInput,
            "not a regular file, or the disk itself",
        )))),
    }
}

/// Makes a file where there is nothing, with these permissions, or with those of every new file. No one whom they keep out can open
/// it meanwhile.
fn new_file(rt: &HostRuntime, path: &str, permissions: Option<Permissions>) -> io::Result<File> {
    let mut how = OpenOptions::new();
    how.write(true).create_new(true);
    let Some(permissions) = permissions else {
        return how.open(rt, path);
    };
    let file = how.mode(permissions.mode() & 0o777).open(rt, path)?;
    match file.set_permissions(permissions) {
        Ok(()) => Ok(file),
        Err(error) => {
            let _ = fs::remove_file(rt, path);
            Err(error)
        }
    }
}

/// Writes an archive of a disk into a new file beside FILE, and renames it to FILE. A crash leaves the old FILE or the whole archive.
fn write_beside<D: Sectors>(
    rt: &HostRuntime,
    disk: &mut D,
    archive: ArchivePlace,
    goal: &str,
    permissions: Option<Permissions>,
) -> Result<(), CommandFault>
    requires on_disk { archive.first + sectors_of archive.len ≤ D.sectors disk.old }
{
    let Ok(part) = format!(in rt.alloc(); "{goal}.part") else {
        return Err(CommandFault::Store(StoreFault::Memory));
    };
    let mut file = match new_file(rt, part.as_str(), permissions) {
        Ok(file) => file,
        Err(error) => return Err(CommandFault::Part(Some(error))),
    };
    let copied = copy_into(disk, archive, &mut file);
    drop(file);
    match copied {
        Ok(()) => {
            let renamed = fs::rename(rt, part.as_str(), goal);
            settle_name(rt, part.as_str(), goal, renamed)
        }
        Err(fault) => {
            let _ = fs::remove_file(rt, part.as_str());
            Err(fault)
        }
    }
}

/// Writes the archive that was published last on a disk into a file, unless that is the disk's own, and says how many bytes it has. A
/// file that is replaced leaves its permissions to the new one.
pub(crate) fn export<D: Sectors>(
    rt: &HostRuntime,
    disk: &mut D,
    from: Identity,
    goal: &str,
) -> Result<(), CommandFault> {
    let archive = match find_archive(disk) {
        Ok(archive) => archive,
        Err(fault) => return Err(CommandFault::Store(fault)),
    };
    if archive.len == 0 {
        return Err(CommandFault::NoArchive);
    }
    let permissions = replaced_permissions(rt, goal, from)?;
    write_beside(rt, disk, archive, goal, permissions)?;
    print_number(rt, "", archive.len, " bytes")
}
