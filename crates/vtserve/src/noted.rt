//! Files and writers of which the last error is noted.
ghost use Rattle.std.specs.Prelude.{◌≡◌};

use crate::fault::Cause;
use crate::watching::Watched;
use file_disk::SectorFile;
use sector_disk::SECTOR_BYTES;
use std::cell::Cell;
use std::io::{self, ErrorKind, Write};

/// What a call came to, whose error is noted.
pub(crate) fn note<T>(cause: &Cell<Cause>, outcome: io::Result<T>) -> io::Result<T>
    ensures { result ≡ outcome }
{
    match outcome {
        Ok(done) => Ok(done),
        Err(error) => {
            cause.set(Some(error));
            Err(error)
        }
    }
}

/// A file that notes what the system said as a call of it failed, for the command that tells of it. While it is watched, its first write
/// or sync that fails is told of, and nothing is written to it once it was lost: such a write or sync fails. Its path is looked at before
/// each write, and before a sync that doesn't follow a write.
#[derive(Drop)]
pub(crate) struct Noted<'a, F> {
    file: F,
    cause: &'a Cell<Cause>,
    watched: Option<Watched<'a>>,
    /// Whether it was written to since the last sync, and so looked at.
    is_written: bool,
    /// Whether a sync succeeded and nothing was written since, so that another one has nothing to do.
    is_synced: bool,
}

impl<'a, F> Noted<'a, F> {
    /// A file that isn't watched.
    pub(crate) fn unwatched(file: F, cause: &'a Cell<Cause>) -> Noted<'a, F> {
        Noted::new(file, cause, None)
    }

    /// A file that may be watched.
    pub(crate) fn new(
        file: F,
        cause: &'a Cell<Cause>,
        watched: Option<Watched<'a>>,
    ) -> Noted<'a, F> {
        Noted {
            file,
            cause,
            watched,
            is_written: false,
            is_synced: false,
        }
    }

    /// What a write or a sync came to.
    fn told(&self, call: &str, outcome: io::Result<()>) -> io::Result<()> {
        if let (Err(error), Some(watched)) = (outcome, self.watched) {
            watched.tell(format_args!("{call}: {error}"));
        }
        note(self.cause, outcome)
    }

    /// Whether it was lost while it is watched.
    fn is_lost(&self) -> bool {
        match self.watched {
            Some(watched) => watched.is_lost(),
            None => false,
        }
    }

    /// Whether it has failed while it is watched, or was lost by the last look.
    fn has_failed(&self) -> bool {
        match self.watched {
            Some(watched) => watched.has_failed(),
            None => false,
        }
    }
}

impl<F: SectorFile> SectorFile for Noted<'_, F> {
    fn read_at(&mut self, into: &mut [u8; SECTOR_BYTES], offset: u64) -> io::Result<()> {
        note(self.cause, self.file.read_at(into, offset))
    }

    fn read_run_at(&mut self, into: &mut [[u8; SECTOR_BYTES]], offset: u64) -> io::Result<()> {
        note(self.cause, self.file.read_run_at(into, offset))
    }

    fn write_at(&mut self, from: &[[u8; SECTOR_BYTES]], offset: u64) -> io::Result<()> {
        let outcome = if self.is_lost() {
            Err(ErrorKind::NotFound.into())
        } else {
            self.file.write_at(from, offset)
        };
        self.is_written = true;
        self.is_synced = false;
        self.told("write", outcome)
    }

    fn sync_data(&mut self) -> io::Result<()> {
        // A sync right after a write can't make a file that was removed since any worse.
        let is_lost = if self.is_written {
            self.has_failed()
        } else {
            self.is_lost()
        };
        self.is_written = false;
        let outcome = if is_lost {
            Err(ErrorKind::NotFound.into())
        } else if self.is_synced {
            Ok(())
        } else {
            self.file.sync_data()
        };
        self.is_synced = outcome.is_ok();
        self.told("sync", outcome)
    }
}

/// A writer that notes what the system said as a write failed.
#[derive(Drop)]
pub(crate) struct NotedWriter<'a, W> {
    pub(crate) writer: &'a mut W,
    pub(crate) cause: &'a Cell<Cause>,
}

impl<W: Write> Write for NotedWriter<'_, W> {
    fn write(&mut self, bytes: &[u8]) -> io::Result<usize> {
        note(self.cause, self.writer.write(bytes))
    }

    fn flush(&mut self) -> io::Result<()> {
        note(self.cause, self.writer.flush())
    }
}
