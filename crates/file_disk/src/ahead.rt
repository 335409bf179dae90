//! The read-ahead buffer.
ghost use Rattle.std.specs.Prelude.{◌≡◌, ◌+◌, ◌<◌, ◌≤◌, ◌⊎◌, ℕ, IsTrue, false};
ghost use Rattle.sector_disk.specs.Disk.{Image};
ghost use Rattle.file_disk.specs.Runs.{Shows};
ghost use Rattle.file_disk.specs.declared.run.TheConstants.{RUN_SECTORS};

use crate::run::{FIRST_RUN, RUN_SECTORS, Run, get_from, overlap};
use sector_disk::SECTOR_BYTES;

/// The consecutive sectors that the file's last read ahead gave, of which the first is sector `first`. It is empty where `len` is 0.
#[derive(Drop)]
pub(crate) struct ReadAhead {
    pub first: u64,
    pub len: usize,
    pub sectors: Run,
    ghost short: { len ≤ RUN_SECTORS },
}

impl ReadAhead {
    /// An empty buffer.
    pub fn none() -> ReadAhead
        ensures { result.len ≡ 0 }
    {
        ReadAhead {
            first: 0,
            len: 0,
            sectors: [[0; SECTOR_BYTES]; RUN_SECTORS],
        }
    }

    /// Gives the sector, if it is in the buffer, and says whether it is.
    pub fn get(&self, at: u64, into: &mut [u8; SECTOR_BYTES]) -> bool
        ensures given { IsTrue result → (image : Image) → Shows image self.now.first self.now.len self.now.sectors → into.new ≡ image at }
        ensures other { result ≡ false → (at < self.now.first) ⊎ (self.now.first + self.now.len ≤ at) }
    {
        get_from(&self.sectors, self.first, self.len, at, into)
    }

    /// How many sectors are read ahead from sector `at` on, which isn't in the buffer, on a disk with `rest` sectors from there on: `FIRST_RUN`
    /// at first, since most of what is read is short, and `RUN_SECTORS` directly after all that were read ahead.
    pub fn next_run(&self, at: u64, rest: u64) -> usize
        requires { 0 < rest }
        ensures some { 0 < result }
        ensures few { result ≤ RUN_SECTORS }
        ensures fits { result ≤ rest }
    {
        let goes_on = self.len > 0 && at >= self.first && at - self.first == self.len as u64;
        let most = if goes_on { RUN_SECTORS } else { FIRST_RUN };
        rest.min(most as u64) as usize
    }

    /// Empties the buffer if it has one of these sectors.
    pub fn invalidate(&mut self, first: u64, len: usize)
        ensures { (old new : Image) → Shows old self.old.first self.old.len self.old.sectors
            → ((at : ℕ) → (at < first) ⊎ (first + len ≤ at) → new at ≡ old at)
            → Shows new self.new.first self.new.len self.new.sectors }
    {
        if overlap(first, len, self.first, self.len) {
            self.len = 0;
        }
    }
}
