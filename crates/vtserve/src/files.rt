//! The commands over a disk in a file.

use crate::boxed::BoxedDisk;
use crate::fault::{Cause, CommandFault, with_cause};
use crate::looks::Looks;
use crate::noted::Noted;
use crate::place::{OpenPath, identity_of};
use crate::printing::print_number;
use crate::regular::{ReadFile, open_regular};
use crate::serving::{Peers, serve};
use crate::stack::take_stack;
use crate::watching::{Watch, Watched};
use file_disk::{FileDisk, NewFile, Start, SystemFile, Zeros};
use generations::StoreFault;
use map_replies::Settings;
use map_server::{formatted_file, new_disk_file, opened_service};
use sector_disk::Sectors;
use std::alloc::AllocError;
use std::cell::Cell;
use std::fs::{File, Metadata, OpenOptions, TryLockError};
use std::io::{self, ErrorKind};
use std::mem::ManuallyDrop;
use std::os::fd::AsRawFd;
use std::os::unix::fs::PermissionsExt;

/// How many standard streams a process has. Their descriptors are the first ones.
const STREAMS: i32 = 3;

/// Creates a disk file of this many sectors with the empty map, and prints a line. If standard output was closed, the line can't be written.
pub(crate) fn format_file(rt: &HostRuntime, path: &str, sectors: u64) -> Result<(), CommandFault> {
    // What is only read takes no line, so that a standard output that was closed is still a fault.
    let mut null = OpenOptions::new();
    null.read(true);
    let _ = open_closed_streams(rt, &null);
    let NewFile { file, bytes } = match new_disk_file(rt, path, sectors) {
        Ok(new) => new,
        Err(fault) => return Err(CommandFault::of_format(fault)),
    };
    let cause: Cell<Cause> = Cell::new(None);
    let file = Noted::unwatched(SystemFile::new(file), &cause);
    // The file is closed before the line is printed: without `/dev/null` it may have the descriptor of standard output.
    match formatted_file(rt, path, file, bytes, Zeros) {
        Ok(disk) => drop(disk),
        Err(fault) => return with_cause(Err(CommandFault::of_format(fault)), &cause),
    }
    print_number(rt, "formatted ", sectors, " sectors")
}

/// Opens `/dev/null` in this way for each standard stream that was closed, and leaves it open until the process ends, so that no disk file gets the
/// stream's descriptor, and no reply is written into it.
fn open_closed_streams(rt: &HostRuntime, how: &OpenOptions) -> io::Result<()> {
    for _ in 0..STREAMS {
        let null = how.open(rt, "/dev/null")?;
        if null.as_raw_fd() >= STREAMS {
            break;
        }
        let _ = ManuallyDrop::new(null);
    }
    Ok(())
}

/// Opens the regular file of a disk.
fn open_disk(rt: &HostRuntime, path: &str, how: &OpenOptions) -> io::Result<(File, Metadata)> {
    let mut null = OpenOptions::new();
    null.read(true).write(true);
    open_closed_streams(rt, &null)?;
    open_regular(rt, path, how)
}

/// Keeps other processes from using an open file. A file system without locks isn't held to it, and that is told; any other fault refuses
/// the file.
fn lock(rt: &HostRuntime, file: &File) -> Result<(), CommandFault> {
    match file.try_lock() {
        Ok(()) => Ok(()),
        Err(TryLockError::Error(error)) if error.kind() == ErrorKind::Unsupported => {
            let _ = eprintln!(rt;
                "vtserve: the file system has no locks: nothing keeps another process from this disk"
            );
            Ok(())
        }
        Err(TryLockError::Error(error)) => Err(CommandFault::File(Some(error))),
        Err(TryLockError::WouldBlock) => {
            let cause = io::Error::new(ErrorKind::WouldBlock, "another process uses it");
            Err(CommandFault::File(Some(cause)))
        }
    }
}

/// Syncs an open file, and has the system read it from its medium again. Where a sync of an earlier process failed, Linux takes what
/// wasn't written for written, and gives it to readers until it forgets it.
fn settle(file: &File) -> Result<(), CommandFault> {
    if let Err(error) = file.sync_data() {
        return Err(CommandFault::Device(Some(error)));
    }
    match libc::posix_fadvise(file.as_raw_fd(), 0, 0, libc::POSIX_FADV_DONTNEED) {
        0 => Ok(()),
        code => Err(CommandFault::Device(Some(io::Error::from_raw_os_error(code)))),
    }
}

/// The file of a disk, in use, and where it was opened.
pub(crate) struct OpenedFile<'a> {
    pub(crate) file: SystemFile<File>,
    pub(crate) place: OpenPath<'a>,
}

/// Opens the file of a disk to read it, and to write it where it `writes`, unless another process uses it, and has it read from its medium. It
/// is opened once, so that the file that is locked is the one that is used.
pub(crate) fn opened_file<'a>(
    rt: &'a HostRuntime,
    path: &'a str,
    writes: bool,
) -> Result<OpenedFile<'a>, CommandFault> {
    let mut how = OpenOptions::new();
    how.read(true).write(writes);
    let file = match open_disk(rt, path, &how) {
        Ok((file, _)) => file,
        Err(error) => return Err(CommandFault::File(Some(error))),
    };
    lock(rt, &file)?;
    settle(&file)?;
    match file.metadata() {
        Ok(metadata) => Ok(OpenedFile {
            file: SystemFile::new(file),
            place: OpenPath {
                rt,
                path,
                identity: identity_of(&metadata),
                bytes: metadata.len(),
            },
        }),
        Err(error) => Err(CommandFault::File(Some(error))),
    }
}

/// Opens the file of a disk to read it, whether another process uses it or not, and tells its permissions.
pub(crate) fn shared_disk(rt: &HostRuntime, path: &str) -> Result<(ReadFile, u32), CommandFault> {
    let mut how = OpenOptions::new();
    how.read(true);
    match open_disk(rt, path, &how) {
        Ok((file, metadata)) => Ok((
            ReadFile {
                file,
                bytes: metadata.len(),
                reads_ahead: false,
            },
            metadata.permissions().mode(),
        )),
        Err(error) => Err(CommandFault::File(Some(error))),
    }
}

/// Serves the map on a disk.
fn serve_disk<D: Sectors + Drop>(
    rt: &HostRuntime,
    disk: D,
    settings: Settings,
    peers: Peers,
    looks: &Looks<'_>,
) -> Result<(), CommandFault> {
    match opened_service(rt.alloc(), disk, settings) {
        Ok(map) => serve(rt, map, peers, looks),
        Err((_, fault)) => Err(CommandFault::Store(fault)),
    }
}

/// Serves the map on the disk in a file, whatever the file had. The first write or sync of the file that fails while
/// connections are served is reported at once.
pub(crate) fn serve_file<S: Start>(
    rt: &HostRuntime,
    path: &str,
    settings: Settings,
    peers: Peers,
    start: S,
) -> Result<(), CommandFault> {
    take_stack(rt);
    let OpenedFile { file, place } = opened_file(rt, path, true)?;
    let cause: Cell<Cause> = Cell::new(None);
    let watch = Cell::new(Watch::Off);
    let watched = Some(Watched {
        place,
        watch: &watch,
    });
    let file = Noted::new(file, &cause, watched);
    match BoxedDisk::new(rt.alloc(), FileDisk::new(file, place.bytes, start)) {
        Ok(disk) => with_cause(
            serve_disk(rt, disk, settings, peers, &Looks::new(watched)),
            &cause,
        ),
        Err(AllocError) => Err(CommandFault::Store(StoreFault::Memory)),
    }
}
