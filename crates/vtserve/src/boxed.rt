//! A disk on the heap.
ghost use Rattle.std.specs.Prelude.{◌≡◌, IfOk};

use sector_disk::{DiskFault, SECTOR_BYTES, Sectors};
use std::alloc::{AllocError, Global};

/// A disk on the heap. A disk in a file has 64 KiB of buffers, which would be copied with each value that has the disk in it.
#[derive(Drop)]
pub(crate) struct BoxedDisk<D> {
    disk: Box<D>,
}

impl<D: Sectors + Drop> BoxedDisk<D> {
    /// Moves a disk to the heap. If there is no memory for it, the disk is dropped.
    pub(crate) fn new(alloc: Global, disk: D) -> Result<BoxedDisk<D>, AllocError>
        ensures { IfOk result (λ boxed. boxed.disk.value ≡ disk) }
    {
        Ok(BoxedDisk {
            disk: Box::new(alloc, disk)?,
        })
    }
}

impl<D: Sectors> Sectors for BoxedDisk<D> {
    ghost honest = { λ boxed. D.honest boxed.disk.value };

    ghost history = { λ boxed. D.history boxed.disk.value };

    ghost sectors = { λ boxed. D.sectors boxed.disk.value };

    ghost faults = { λ boxed. D.faults boxed.disk.value };

    fn count(&self) -> u64 {
        self.disk.count()
    }

    fn read(&mut self, at: u64, into: &mut [u8; SECTOR_BYTES]) -> Result<(), DiskFault> {
        self.disk.read(at, into)
    }

    fn write(&mut self, at: u64, from: &[u8; SECTOR_BYTES]) -> Result<(), DiskFault> {
        self.disk.write(at, from)
    }

    fn sync(&mut self) -> Result<(), DiskFault> {
        self.disk.sync()
    }
}
