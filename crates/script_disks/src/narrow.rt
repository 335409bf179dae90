//! Writers that take only so much. A call that fails is interrupted, which ends a connection as any other fault does.
use std::alloc::Global;
use std::io::{self, ErrorKind, Write};

/// What a writer takes.
#[derive(Clone, Copy)]
pub struct Narrowness {
    /// The most bytes of a write.
    pub size: usize,
    /// The most bytes of all writes.
    pub room: usize,
    /// Whether a write fails that finds no room; else it takes nothing.
    pub fails: bool,
}

/// Takes what is written.
pub const WIDE: Narrowness = Narrowness {
    size: usize::MAX,
    room: usize::MAX,
    fails: true,
};

/// Keeps what is written, as far as it takes it.
#[derive(Drop)]
pub struct Narrow {
    pub taken: Vec<u8>,
    narrowness: Narrowness,
}

impl Narrow {
    pub fn new(alloc: Global, narrowness: Narrowness) -> Narrow {
        Narrow {
            taken: Vec::new(alloc),
            narrowness,
        }
    }
}

impl Write for Narrow {
    fn write(&mut self, buf: &[u8]) -> io::Result<usize> {
        let Narrowness { size, room, fails } = self.narrowness;
        let count = room.min(size).min(buf.len());
        if count == 0 && fails {
            return Err(ErrorKind::Interrupted.into());
        }
        self.taken.extend_from_slice(&buf[..count])?;
        self.narrowness.room = room - count;
        Ok(count)
    }

    fn flush(&mut self) -> io::Result<()> {
        Ok(())
    }
}
