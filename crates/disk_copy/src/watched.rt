//! A disk that others write, with a record of what its reads gave.
ghost use Rattle.std.specs.Prelude.{◌≡◌, ◌<◌, ℕ, OnOk, OnErr};
ghost use Rattle.sector_disk.specs.Asked.{OnlyReads};
ghost use Rattle.sector_disk.specs.Disk.{Image, all_zeros, seen, CountsFault};
ghost use Rattle.disk_copy.specs.Noted.{count_of, moment_of, AreOf, HasNoted};

use crate::shared::SharedSectors;
use sector_disk::{DiskFault, SECTOR_BYTES, Sectors};
use std::marker::PhantomData;
use std::mem;
use std::snapshot::Snapshot;

/// What others leave of a disk, and when it is read. No code can read it, and a function over `M: Moments` is proved for all that it may
/// be: so each disk is opened with moments of its own.
pub trait Moments: Drop {
    /// What the disk has at each moment.
    ghost images: { ℕ → Image };

    /// The moment at which it is opened.
    ghost opened: { ℕ };

    /// How long after read k the read after it is, and after the opening for 0.
    ghost waits: { ℕ → ℕ };
}

/// For a program to name, over code that is proved for any `M: Moments`.
#[derive(Drop)]
pub struct AnyMoments;

impl Moments for AnyMoments {
    ghost images = { λ _. all_zeros };

    ghost opened = { 0 };

    ghost waits = { λ _. 0 };
}

/// The reads that succeeded so far, the newest outermost.
#[derive(Drop)]
pub enum Reads {
    /// No read so far.
    Opened,
    /// A read that gave these bytes.
    Gave(u64, Snapshot<[u8; SECTOR_BYTES]>, Snapshot<Reads>),
}

/// A disk that others may write: it is `shared` as long as each read that succeeded gave what the images say. The record of the reads has no
/// bytes, and costs nothing when the program runs. The disk has to be one that reads each sector anew.
#[derive(Drop)]
pub struct SharedDisk<D, M> {
    disk: D,
    reads: Snapshot<Reads>,
    moments: PhantomData<M>,
}

impl<D: Sectors, M: Moments> SharedDisk<D, M> {
    /// A disk of which nothing was read.
    pub fn new(disk: D) -> SharedDisk<D, M>
        ensures disk { result.disk ≡ disk }
    {
        SharedDisk {
            disk,
            reads: Snapshot::of(&Reads::Opened),
            moments: PhantomData,
        }
    }

    /// The disk itself.
    pub fn into_disk(self) -> D
        ensures { result ≡ self.disk }
    {
        let SharedDisk {
            disk,
            reads: _,
            moments: _,
        } = self;
        disk
    }

    /// Notes what a read gave.
    fn note(&mut self, at: u64, bytes: &[u8; SECTOR_BYTES])
        ensures disk { self.new.disk ≡ self.old.disk }
        ensures noted { HasNoted self.old.reads.value at bytes.now self.new.reads.value }
    {
        let before = mem::replace(&mut self.reads, Snapshot::of(&Reads::Opened));
        self.reads = Snapshot::of(&Reads::Gave(at, Snapshot::of(bytes), before));
    }

    /// Reads a sector, and notes it.
    fn read_noted(&mut self, at: u64, into: &mut [u8; SECTOR_BYTES]) -> Result<(), DiskFault>
        requires { at < D.sectors self.old.disk }
        ensures disk { OnlyReads D.sectors D.honest D.history self.old.disk self.new.disk }
        ensures faults { CountsFault result (D.faults self.old.disk) (D.faults self.new.disk) }
        ensures gives { D.honest self.new.disk → OnOk result (into.new ≡ seen (D.history self.old.disk) at) }
        ensures noted { OnOk result (HasNoted self.old.reads.value at into.new self.new.reads.value) }
        ensures unchanged { OnErr result (self.new.reads ≡ self.old.reads) }
    {
        match self.disk.read(at, into) {
            Ok(()) => {
                self.note(at, into);
                Ok(())
            }
            Err(fault) => Err(fault),
        }
    }
}

impl<D: Sectors, M: Moments> Sectors for SharedDisk<D, M> {
    ghost honest = { λ shared. D.honest shared.disk };

    ghost history = { λ shared. D.history shared.disk };

    ghost sectors = { λ shared. D.sectors shared.disk };

    ghost faults = { λ shared. D.faults shared.disk };

    fn count(&self) -> u64 {
        self.disk.count()
    }

    fn read(&mut self, at: u64, into: &mut [u8; SECTOR_BYTES]) -> Result<(), DiskFault> {
        self.read_noted(at, into)
    }

    fn write(&mut self, at: u64, from: &[u8; SECTOR_BYTES]) -> Result<(), DiskFault> {
        self.disk.write(at, from)
    }

    fn sync(&mut self) -> Result<(), DiskFault> {
        self.disk.sync()
    }
}

impl<D: Sectors, M: Moments> SharedSectors for SharedDisk<D, M> {
    ghost images = { M.images };

    ghost opened = { M.opened };

    ghost now = { λ shared. moment_of M.opened M.waits (count_of shared.reads.value) };

    ghost shared = { λ shared. AreOf M.images M.opened M.waits shared.reads.value };

    #[tactic(auto, using(crate::proofs::Noting::opened_before, crate::proofs::Noting::shows_noted))]
    fn read_anew(&mut self, at: u64, into: &mut [u8; SECTOR_BYTES]) -> Result<(), DiskFault> {
        self.read_noted(at, into)
    }
}
