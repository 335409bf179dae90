//! The record of what a file was asked, which only clauses read.
ghost use Rattle.std.specs.Prelude.{◌≡◌, [], take};
ghost use Rattle.file_disk.specs.Calls.{NotesRead, NotesRun, NotesWrite, NotesSync};

use crate::run::Run;
use sector_disk::SECTOR_BYTES;
use std::snapshot::Snapshot;
use std::{io, mem};

/// The calls so far with their answers, the newest outermost.
#[derive(Drop)]
pub enum Noted {
    /// No call so far.
    Opened,
    /// A read that gave these bytes.
    Gave(u64, Snapshot<[u8; SECTOR_BYTES]>, Snapshot<Noted>),
    /// A read of a run that gave the first of these sectors, as many as the number says.
    GaveRun(u64, Snapshot<Run>, usize, Snapshot<Noted>),
    /// A read that failed.
    GaveNone(u64, Snapshot<Noted>),
    /// A write of the first of these sectors, as many as the number says, that succeeded.
    Took(u64, Snapshot<Run>, usize, Snapshot<Noted>),
    /// Such a write that failed.
    Refused(u64, Snapshot<Run>, usize, Snapshot<Noted>),
    /// A sync that succeeded.
    Flushed(Snapshot<Noted>),
    /// A sync that failed.
    NotFlushed(Snapshot<Noted>),
}

/// The calls of a file with their answers, by offsets in bytes. It has no bytes, and costs nothing when the program runs.
/// Who notes a call here has to make it: no clause can see to that.
#[derive(Drop)]
pub struct Record {
    noted: Snapshot<Noted>,
}

impl Record {
    ghost use Rattle.file_disk.specs.Notes.{record_calls};

    /// A record with no call.
    pub fn new() -> Record
        ensures { record_calls result ≡ [] }
    {
        Record {
            noted: Snapshot::of(&Noted::Opened),
        }
    }

    /// Notes a read and what it left in its buffer, and passes its outcome on.
    pub fn note_read(
        &mut self,
        outcome: io::Result<()>,
        offset: u64,
        into: &[u8; SECTOR_BYTES],
    ) -> io::Result<()>
        ensures outcome { result ≡ outcome }
        ensures calls { NotesRead outcome offset into.now (record_calls self.old) (record_calls self.new) }
    {
        let before = self.take();
        let noted = match outcome {
            Ok(()) => Noted::Gave(offset, Snapshot::of(into), before),
            Err(_) => Noted::GaveNone(offset, before),
        };
        self.put(noted);
        outcome
    }

    /// Notes a read of the first `count` sectors and what it left in its buffer, and passes its outcome on.
    pub fn note_run(
        &mut self,
        outcome: io::Result<()>,
        offset: u64,
        into: &Run,
        count: usize,
    ) -> io::Result<()>
        ensures outcome { result ≡ outcome }
        ensures calls { NotesRun outcome offset (take count into.now) (record_calls self.old) (record_calls self.new) }
    {
        let before = self.take();
        let noted = match outcome {
            Ok(()) => Noted::GaveRun(offset, Snapshot::of(into), count, before),
            Err(_) => Noted::GaveNone(offset, before),
        };
        self.put(noted);
        outcome
    }

    /// Notes a write of the first `count` sectors, and passes its outcome on.
    pub fn note_write(
        &mut self,
        outcome: io::Result<()>,
        offset: u64,
        from: &Run,
        count: usize,
    ) -> io::Result<()>
        ensures outcome { result ≡ outcome }
        ensures calls { NotesWrite outcome offset (take count from.now) (record_calls self.old) (record_calls self.new) }
    {
        let before = self.take();
        let noted = match outcome {
            Ok(()) => Noted::Took(offset, Snapshot::of(from), count, before),
            Err(_) => Noted::Refused(offset, Snapshot::of(from), count, before),
        };
        self.put(noted);
        outcome
    }

    /// Notes a sync, and passes its outcome on.
    pub fn note_sync(&mut self, outcome: io::Result<()>) -> io::Result<()>
        ensures outcome { result ≡ outcome }
        ensures calls { NotesSync outcome (record_calls self.old) (record_calls self.new) }
    {
        let before = self.take();
        let noted = match outcome {
            Ok(()) => Noted::Flushed(before),
            Err(_) => Noted::NotFlushed(before),
        };
        self.put(noted);
        outcome
    }

    /// Makes these the calls.
    fn put(&mut self, noted: Noted)
        ensures { self.new.noted.value ≡ noted }
    {
        drop(mem::replace(&mut self.noted, Snapshot::of(&noted)));
    }

    /// Takes the calls out.
    fn take(&mut self) -> Snapshot<Noted>
        ensures { result ≡ self.old.noted }
    {
        mem::replace(&mut self.noted, Snapshot::of(&Noted::Opened))
    }
}
