//! The archive, piece by piece.
ghost use Rattle.std.specs.Prelude.{◌≡◌, ◌≤◌, ◌<◌, ◌+◌, length, OnOk, OnErr};
ghost use Rattle.archive_export.specs.Copies.{CopiesBytes, CopiesArchive, CopiesFewer, TellsDevice};
ghost use Rattle.generations.specs.Areas.{sectors_of};
ghost use Rattle.sector_disk.specs.Asked.{OnlyReads};

use published_tiles::ArchivePlace;
use sector_bytes::read_bytes;
use sector_disk::{DiskFault, Sectors};
use std::io::Write;
use thiserror::Error;
use whole_write::write_whole;

/// How many bytes are read and written at once.
const PIECE_SIZE: usize = 65_536;

/// Why an archive wasn't copied whole.
#[derive(Clone, Copy, Debug, Error)]
pub enum CopyFault {
    /// A read of the disk failed.
    #[error("a read of the disk failed")]
    Device,
    /// A write failed.
    #[error("a write failed")]
    Write,
}

/// Reads the bytes of the archive from one on, as many as the piece has, and writes them.
fn copy_piece<D: Sectors, W: Write>(
    disk: &mut D,
    archive: ArchivePlace,
    at: u64,
    piece: &mut [u8],
    into: &mut W,
) -> Result<(), CopyFault>
    requires some { 0 < length piece.old }
    requires within { at + length piece.old ≤ archive.len }
    requires on_disk { archive.first + sectors_of archive.len ≤ D.sectors disk.old }
    ensures disk { OnlyReads D.sectors D.honest D.history disk.old disk.new }
    ensures failed { TellsDevice result (D.faults disk.old) (D.faults disk.new) }
    ensures length { length piece.new ≡ length piece.old }
    ensures copied { OnOk result (CopiesBytes D.honest D.history archive disk.old at (length piece.old) disk.new
        (W.contents into.old) (W.contents into.new)) }
    ensures part { OnErr result (CopiesFewer D.honest D.history archive disk.old at (length piece.old) disk.new
        (W.contents into.old) (W.contents into.new)) }
{
    match read_bytes(disk, archive.first, at, piece) {
        Ok(()) => {}
        Err(DiskFault) => return Err(CopyFault::Device),
    }
    match write_whole(into, piece) {
        Ok(()) => Ok(()),
        Err(_) => Err(CopyFault::Write),
    }
}

/// Writes the bytes of an archive on a disk, piece by piece. It allocates nothing and writes nothing to the disk.
///
/// # Errors
///
/// `Device` if a read of the disk failed, `Write` if a write did. Less than the archive has been written then, and it is the archive's
/// first bytes.
pub fn copy_archive<D: Sectors, W: Write>(
    disk: &mut D,
    archive: ArchivePlace,
    into: &mut W,
) -> Result<(), CopyFault>
    requires on_disk { archive.first + sectors_of archive.len ≤ D.sectors disk.old }
    ensures disk { OnlyReads D.sectors D.honest D.history disk.old disk.new }
    ensures failed { TellsDevice result (D.faults disk.old) (D.faults disk.new) }
    ensures copied { OnOk result (CopiesArchive D.honest D.history archive disk.old disk.new (W.contents into.old) (W.contents into.new)) }
    ensures part { OnErr result (CopiesFewer D.honest D.history archive disk.old 0 archive.len disk.new (W.contents into.old) (W.contents into.new)) }
{
    let mut piece = [0; PIECE_SIZE];
    let mut at = 0;
    while at < archive.len {
        let count = (archive.len - at).min(PIECE_SIZE as u64);
        copy_piece(disk, archive, at, &mut piece[..count as usize], into)?;
        at += count;
    }
    Ok(())
}
