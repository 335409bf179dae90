//! A file with a record of its calls.
ghost use Rattle.std.specs.Prelude.{◌≡◌, ◌≤◌, [], length, take};
ghost use Rattle.file_disk.specs.Calls.{NotesRead, NotesRun, NotesWrite, NotesSync};
ghost use Rattle.file_disk.specs.declared.run.TheConstants.{RUN_SECTORS};

use crate::file::SectorFile;
use crate::record::Record;
use crate::run::{RUN_SECTORS, Run};
use sector_disk::SECTOR_BYTES;
use std::io;

/// A file of which each call is recorded.
#[derive(Drop)]
pub(crate) struct RecordedFile<F> {
    file: F,
    record: Record,
}

/// Each method makes the call that it notes, which no clause can see to.
impl<F: SectorFile + Drop> RecordedFile<F> {
    ghost use Rattle.file_disk.specs.Notes.{recorded_calls};

    /// A file of which no call is recorded yet.
    pub fn new(file: F) -> RecordedFile<F>
        ensures { recorded_calls result ≡ [] }
    {
        RecordedFile {
            file,
            record: Record::new(),
        }
    }

    /// Reads a sector.
    pub fn read(&mut self, into: &mut [u8; SECTOR_BYTES], offset: u64) -> io::Result<()>
        ensures { NotesRead result offset into.new (recorded_calls self.old) (recorded_calls self.new) }
    {
        let outcome = self.file.read_at(into, offset);
        self.record.note_read(outcome, offset, into)
    }

    /// Reads the first `count` sectors.
    pub fn read_run(&mut self, into: &mut Run, count: usize, offset: u64) -> io::Result<()>
        requires { count ≤ RUN_SECTORS }
        ensures long { length into.new ≡ RUN_SECTORS }
        ensures notes { NotesRun result offset (take count into.new) (recorded_calls self.old) (recorded_calls self.new) }
    {
        let outcome = self.file.read_run_at(&mut into[..count], offset);
        self.record.note_run(outcome, offset, into, count)
    }

    /// Writes the first `count` sectors.
    pub fn write_run(&mut self, from: &Run, count: usize, offset: u64) -> io::Result<()>
        requires { count ≤ RUN_SECTORS }
        ensures { NotesWrite result offset (take count from.now) (recorded_calls self.old) (recorded_calls self.new) }
    {
        let outcome = self.file.write_at(&from[..count], offset);
        self.record.note_write(outcome, offset, from, count)
    }

    /// Syncs it.
    pub fn sync(&mut self) -> io::Result<()>
        ensures { NotesSync result (recorded_calls self.old) (recorded_calls self.new) }
    {
        let outcome = self.file.sync_data();
        self.record.note_sync(outcome)
    }
}
