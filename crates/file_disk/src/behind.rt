//! The write-behind buffer.
ghost use Rattle.std.specs.Prelude.{◌≡◌, ◌+◌, ◌<◌, ◌≤◌, ◌⊎◌, ℕ, IsTrue, ◌≢◌, false};
ghost use Rattle.sector_disk.specs.Disk.{History, seen};
ghost use Rattle.sector_disk.specs.Disk.History.{wrote};
ghost use Rattle.file_disk.specs.Runs.{wrote_first, Apart};
ghost use Rattle.file_disk.specs.declared.run.TheConstants.{RUN_SECTORS};

use crate::run::{RUN_SECTORS, Run, get_from};
use sector_disk::SECTOR_BYTES;

/// Consecutive sectors that were written, of which the first is sector `first`. The file wasn't asked to write them yet, or failed to.
/// It is empty where `len` is 0.
#[derive(Drop)]
pub(crate) struct WriteBehind {
    pub first: u64,
    pub len: usize,
    pub sectors: Run,
    ghost short: { len ≤ RUN_SECTORS },
}

impl WriteBehind {
    /// An empty buffer.
    pub fn none() -> WriteBehind
        ensures len { result.len ≡ 0 }
        ensures first { result.first ≡ 0 }
    {
        WriteBehind {
            first: 0,
            len: 0,
            sectors: [[0; SECTOR_BYTES]; RUN_SECTORS],
        }
    }

    /// Gives the sector, if it is in the buffer, and says whether it is.
    pub fn get(&self, at: u64, into: &mut [u8; SECTOR_BYTES]) -> bool
        ensures given { IsTrue result → (h : History) → into.new ≡ seen (wrote_first self.now.first self.now.len self.now.sectors h) at }
        ensures other { result ≡ false → (h : History) → seen (wrote_first self.now.first self.now.len self.now.sectors h) at ≡ seen h at }
        ensures apart { result ≡ false → Apart at 1 self.now.first self.now.len }
    {
        get_from(&self.sectors, self.first, self.len, at, into)
    }

    /// Whether the sector is the next one, and there is room for it.
    pub fn can_append(&self, at: u64) -> bool
        ensures next { IsTrue result → (self.now.len < RUN_SECTORS) × (at ≡ self.now.first + self.now.len) }
        ensures other { result ≡ false → (RUN_SECTORS ≤ self.now.len) ⊎ (at ≢ self.now.first + self.now.len) }
    {
        self.len < RUN_SECTORS && at >= self.first && at - self.first == self.len as u64
    }

    /// Buffers the first sector.
    pub fn start(&mut self, at: u64, from: &[u8; SECTOR_BYTES])
        requires { self.old.len ≡ 0 }
        ensures wrote { (h : History) → wrote_first self.new.first self.new.len self.new.sectors h
            ≡ wrote at from.now (wrote_first self.old.first self.old.len self.old.sectors h) }
        ensures end { self.new.first + self.new.len ≡ at + 1 }
    {
        self.first = at;
        self.sectors[0] = *from;
        self.len = 1;
    }

    /// Buffers the next sector.
    pub fn append(&mut self, at: u64, from: &[u8; SECTOR_BYTES])
        requires room { self.old.len < RUN_SECTORS }
        requires on { at ≡ self.old.first + self.old.len }
        ensures wrote { (h : History) → wrote_first self.new.first self.new.len self.new.sectors h
            ≡ wrote at from.now (wrote_first self.old.first self.old.len self.old.sectors h) }
        ensures end { self.new.first + self.new.len ≡ at + 1 }
    {
        self.sectors[self.len] = *from;
        self.len += 1;
    }
}
