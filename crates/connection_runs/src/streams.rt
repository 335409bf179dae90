//! What a connection reads. A call that fails is interrupted, which ends a connection as any other fault does.
use std::io::{self, ErrorKind, Read};

/// Gives bytes in pieces. Behind them the input ends, or is open: then each read fails.
#[derive(Clone, Copy)]
pub(crate) struct Pieces<'a> {
    pub(crate) rest: &'a [u8],
    /// The most bytes that a read gives.
    pub(crate) size: usize,
    /// Whether the input is open after these bytes.
    pub(crate) open: bool,
    /// How many reads failed.
    pub(crate) failed: usize,
}

impl Read for Pieces<'_> {
    fn read(&mut self, buf: &mut [u8]) -> io::Result<usize> {
        if self.open && self.rest.is_empty() {
            self.failed = self.failed.saturating_add(1);
            return Err(ErrorKind::Interrupted.into());
        }
        let all = self.rest;
        let count = self.size.min(buf.len()).min(all.len());
        buf[..count].copy_from_slice(&all[..count]);
        self.rest = &all[count..];
        Ok(count)
    }
}
