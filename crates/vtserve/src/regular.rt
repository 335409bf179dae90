//! Regular files.

use file_disk::SectorFile;
use sector_disk::SECTOR_BYTES;
use std::fs::{self, File, Metadata, OpenOptions};
use std::io::{self, ErrorKind};
use std::os::unix::fs::FileExt;

/// Why a path that leads to something else is refused.
fn not_regular() -> io::Error {
    io::Error::new(ErrorKind::InvalidInput, "not a regular file")
}

/// Opens the regular file at a path, or at the end of its links. A device, a FIFO, a socket and a folder are refused, and not opened:
/// opening a FIFO may wait for another process without end, and a device may act on it.
pub(crate) fn open_regular(
    rt: &HostRuntime,
    path: &str,
    how: &OpenOptions,
) -> io::Result<(File, Metadata)> {
    if !fs::metadata(rt, path)?.is_file() {
        return Err(not_regular());
    }
    let file = how.open(rt, path)?;
    match file.metadata() {
        Ok(metadata) if metadata.is_file() => Ok((file, metadata)),
        // Another file was given the name meanwhile.
        Ok(_) => Err(not_regular()),
        Err(error) => Err(error),
    }
}

/// An open file and its length in bytes, for reading it in sectors: the last one is filled up with zeros.
#[derive(Drop)]
pub(crate) struct ReadFile {
    pub(crate) file: File,
    pub(crate) bytes: u64,
    /// Whether several sectors are read at once. They aren't where another process may write to the file: the disk would give the later
    /// ones as of an earlier moment.
    pub(crate) reads_ahead: bool,
}

impl ReadFile {
    /// Fills the buffer with the bytes from an offset on, and with zeros after the last byte.
    fn fill(&self, into: &mut [u8], offset: u64) -> io::Result<()> {
        let there = self.bytes.saturating_sub(offset).min(into.len() as u64) as usize;
        into[there..].fill(0);
        self.file.read_exact_at(&mut into[..there], offset)
    }
}

impl SectorFile for ReadFile {
    fn read_at(&mut self, into: &mut [u8; SECTOR_BYTES], offset: u64) -> io::Result<()> {
        self.fill(into, offset)
    }

    fn read_run_at(&mut self, into: &mut [[u8; SECTOR_BYTES]], offset: u64) -> io::Result<()> {
        if self.reads_ahead {
            self.fill(into.as_flattened_mut(), offset)
        } else {
            Err(ErrorKind::Unsupported.into())
        }
    }

    fn write_at(&mut self, _from: &[[u8; SECTOR_BYTES]], _offset: u64) -> io::Result<()> {
        Err(ErrorKind::Unsupported.into())
    }

    fn sync_data(&mut self) -> io::Result<()> {
        Err(ErrorKind::Unsupported.into())
    }
}
