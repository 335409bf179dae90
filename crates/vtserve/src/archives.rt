//! The commands over an archive in a file.

use crate::fault::{Cause, CommandFault, Paths};
use crate::noted::Noted;
use crate::regular::{ReadFile, open_regular};
use crate::{Told, ended, refused, refused_file};
use archive_commands::{ArchiveFault, Verdict, show, verify_stored};
use file_disk::{FileDisk, Start};
use pm_header::{HEADER_BYTES, Header, SectionSpan};
use sector_disk::SECTOR_BYTES;
use std::cell::Cell;
use std::fs::{File, Metadata, OpenOptions};
use std::io::{self, Read};
use std::process::ExitCode;

/// Opens a regular file to read it.
fn opened_to_read(rt: &HostRuntime, path: &str) -> io::Result<(File, Metadata)> {
    let mut how = OpenOptions::new();
    how.read(true);
    open_regular(rt, path, &how)
}

/// How many of the first bytes of an archive of this length have all that `show` prints of it, beside its header: those up to the end of
/// the metadata. Metadata that are compressed or don't end inside the file aren't printed.
fn shown_end(header: &Header, bytes: u64) -> u64 {
    let SectionSpan { offset, length } = header.metadata;
    match offset.checked_add(length) {
        Some(end) if end <= bytes && header.has_plain_directories() => end,
        _ => 0,
    }
}

/// Reads the header of a file of this length, and what follows it up to the end of the metadata.
///
/// `show` prints of these bytes what it prints of the whole file (`IsShown` and `HeaderHas` of `archive_commands`). Fewer than 127 bytes
/// are the whole file, and of 127 the faults of a header and its fields are those of the file. If the metadata are compressed, that is
/// all. If they end inside the file, the bytes have all of them. If not, they end after 127 bytes too: `unreadable` of both.
fn read_shown(file: &mut File, bytes: u64, into: &mut Vec<u8>) -> io::Result<()> {
    let header_bytes = HEADER_BYTES as u64;
    file.by_ref().take(header_bytes).read_to_end(into)?;
    if let Ok(header) = Header::from_bytes(into.as_slice()) {
        let rest = shown_end(&header, bytes).saturating_sub(header_bytes);
        file.by_ref().take(rest).read_to_end(into)?;
    }
    Ok(())
}

/// The first bytes of a regular file, as many as `show` needs.
fn opened_to_show(rt: &HostRuntime, path: &str) -> io::Result<Vec<u8>> {
    let (mut file, metadata) = opened_to_read(rt, path)?;
    let mut bytes = Vec::new(rt.alloc());
    match read_shown(&mut file, metadata.len(), &mut bytes) {
        Ok(()) => Ok(bytes),
        Err(error) => Err(error),
    }
}

/// Prints the header and the metadata of an archive.
pub(crate) fn show_file(rt: &HostRuntime, path: &str, told: Told) -> ExitCode {
    let archive = match opened_to_show(rt, path) {
        Ok(archive) => archive,
        Err(error) => {
            let fault = CommandFault::of_file(error);
            return ended(rt, Err(fault), Paths { path, goal: "" }, told);
        }
    };
    match show(archive.as_slice(), &mut rt.stdout()) {
        Ok(()) => ExitCode::SUCCESS,
        Err(fault) => refused_file(rt, fault, path, told),
    }
}

/// The verdict on the archive in a file, whatever the file has. It is read in parts, and not kept in memory.
fn judged<S: Start>(rt: &HostRuntime, path: &str, start: S) -> Result<Verdict, CommandFault> {
    let (file, metadata) = match opened_to_read(rt, path) {
        Ok(opened) => opened,
        Err(error) => return Err(CommandFault::File(Some(error))),
    };
    let bytes = metadata.len();
    let Some(rounded) = bytes.checked_add(SECTOR_BYTES as u64 - 1) else {
        return Err(CommandFault::File(None));
    };
    let cause: Cell<Cause> = Cell::new(None);
    let file = ReadFile {
        file,
        bytes,
        reads_ahead: true,
    };
    let mut disk = FileDisk::new(Noted::unwatched(file, &cause), rounded, start);
    let outcome = verify_stored(rt.alloc(), &mut disk, bytes);
    drop(disk);
    match outcome {
        Err(ArchiveFault::Read) => Err(CommandFault::File(cause.get())),
        _ => Ok(Verdict::of(outcome)),
    }
}

/// Verifies an archive, and prints its counts or its first fault.
pub(crate) fn verify_file<S: Start>(
    rt: &HostRuntime,
    path: &str,
    told: Told,
    start: S,
) -> ExitCode {
    match judged(rt, path, start) {
        Ok(Verdict::Unjudged(fault)) => refused_file(rt, fault, path, told),
        Ok(verdict) => match println!(rt; "{verdict}") {
            Ok(()) => ExitCode::from(verdict.status()),
            Err(_) => refused(rt, "Write"),
        },
        Err(fault) => ended(rt, Err(fault), Paths { path, goal: "" }, told),
    }
}
