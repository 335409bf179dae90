//! Files that tests make up, and what they note.
ghost use Rattle.std.specs.Io.{ReadsAtMost, WritesAtMost};

use std::cell::Cell;
use std::fs::{Metadata, OpenFile};
use std::io::{self, ErrorKind};
use std::os::unix::fs::FileExt;

/// A call of a file: its name, and its numbers, such as an offset and a length.
pub(crate) type Call = (&'static str, u64, u64);

/// The calls that are wanted, and how many were made.
#[derive(Drop)]
pub(crate) struct Notes {
    wanted: &'static [Call],
    count: Cell<usize>,
    /// How many were made as wanted, before the first that differs.
    as_wanted: Cell<usize>,
}

impl Notes {
    pub(crate) fn new(wanted: &'static [Call]) -> Notes {
        Notes {
            wanted,
            count: Cell::new(0),
            as_wanted: Cell::new(0),
        }
    }

    /// Notes a call. Its number, from 1 on.
    pub(crate) fn add(&self, call: Call) -> usize {
        let before = self.count.get();
        let number = before.saturating_add(1);
        self.count.set(number);
        if self.as_wanted.get() == before && self.wanted.get(before) == Some(&call) {
            self.as_wanted.set(number);
        }
        number
    }

    /// Whether no call differs, is missing or is one too many.
    pub(crate) fn are_as_wanted(&self) -> bool {
        let count = self.as_wanted.get();
        count == self.count.get() && count == self.wanted.len()
    }
}

/// A file of a test: how it reads and writes, and what it does with each other call.
pub(crate) trait Fake {
    fn read_at(&self, buf: &mut [u8], offset: u64) -> io::Result<usize>
        ensures bound { ReadsAtMost result buf.new };

    fn write_at(&self, buf: &[u8], offset: u64) -> io::Result<usize>
        ensures bound { WritesAtMost result buf.now };

    fn call(&self, call: Call) -> io::Result<()>;
}

/// A file of a test, with the traits of a file of the system.
#[derive(Drop)]
pub(crate) struct FakeFile<'a, F> {
    pub(crate) fake: &'a F,
}

impl<F: Fake> FileExt for FakeFile<'_, F> {
    fn read_at(&self, buf: &mut [u8], offset: u64) -> io::Result<usize> {
        self.fake.read_at(buf, offset)
    }

    fn write_at(&self, buf: &[u8], offset: u64) -> io::Result<usize> {
        self.fake.write_at(buf, offset)
    }
}

impl<F: Fake> OpenFile for FakeFile<'_, F> {
    /// A call that no disk has a use for.
    fn metadata(&self) -> io::Result<Metadata> {
        let _ = self.fake.call(("metadata", 0, 0));
        Err(ErrorKind::Unsupported.into())
    }

    fn set_len(&self, size: u64) -> io::Result<()> {
        self.fake.call(("set_len", size, 0))
    }

    fn sync_all(&self) -> io::Result<()> {
        self.fake.call(("sync_all", 0, 0))
    }

    fn sync_data(&self) -> io::Result<()> {
        self.fake.call(("sync_data", 0, 0))
    }
}
