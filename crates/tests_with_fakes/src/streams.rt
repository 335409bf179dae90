//! Readers and writers that tests make up.
ghost use Rattle.std.specs.Io.{ReadsAtMost, WritesAtMost};
ghost use Rattle.std.specs.Prelude.{◌≤◌, length};

use std::io::{self, ErrorKind, Read, Write};

/// What a reader of a test gives.
pub(crate) trait Gives {
    /// Puts the next bytes into a buffer. How many these are.
    fn give(&mut self, buf: &mut [u8]) -> io::Result<usize>
        ensures bound { ReadsAtMost result buf.new };
}

/// What a writer of a test takes.
pub(crate) trait Takes {
    /// Takes the first of these bytes. How many these are.
    fn take(&mut self, buf: &[u8]) -> io::Result<usize>
        ensures bound { WritesAtMost result buf.now };
}

/// A stream of a test.
#[derive(Drop)]
pub(crate) struct FakeStream<T> {
    pub(crate) inner: T,
}

impl<G: Gives> Read for FakeStream<G> {
    fn read(&mut self, buf: &mut [u8]) -> io::Result<usize> {
        self.inner.give(buf)
    }
}

impl<T: Takes> Write for FakeStream<T> {
    fn write(&mut self, buf: &[u8]) -> io::Result<usize> {
        self.inner.take(buf)
    }

    fn flush(&mut self) -> io::Result<()> {
        Ok(())
    }
}

/// Gives so many bytes of what it is to give.
pub(crate) fn take_from<'a>(rest: &mut &'a [u8], size: usize, buf: &mut [u8]) -> usize
    ensures { result ≤ length buf.new }
{
    let count = size.min(buf.len()).min(rest.len());
    let (given, behind) = rest.split_at(count);
    buf[..count].copy_from_slice(given);
    *rest = behind;
    count
}

/// Takes so many bytes in all, and then fails or takes nothing. Counts these calls.
#[derive(Drop)]
pub(crate) struct Narrow {
    pub(crate) room: usize,
    pub(crate) fails: bool,
    pub(crate) failed: usize,
    pub(crate) taken: Vec<u8>,
}

impl Takes for Narrow {
    fn take(&mut self, buf: &[u8]) -> io::Result<usize> {
        let count = self.room.min(buf.len());
        if count == 0 {
            self.failed = self.failed.saturating_add(1);
        }
        if count == 0 && self.fails {
            return Err(ErrorKind::BrokenPipe.into());
        }
        self.taken.extend_from_slice(&buf[..count])?;
        self.room -= count;
        Ok(count)
    }
}
