//! A disk that others write while it is read.
ghost use Rattle.std.specs.Prelude.{◌≡◌, ◌≤◌, ◌<◌, ℕ, OnOk};
ghost use Rattle.sector_disk.specs.Asked.{OnlyReads};
ghost use Rattle.sector_disk.specs.Disk.{Image, seen, CountsFault};
ghost use Rattle.disk_copy.specs.Shared.{GoesOn, IsOf};

use sector_disk::{DiskFault, SECTOR_BYTES, Sectors};

/// A disk that others may write while it is read. Its images are a fact of its type, as what a file had is one of `file_disk`'s `Start`: a
/// function over any `D: SharedSectors` is proved for all that they may be.
pub trait SharedSectors: Sectors {
    /// What the disk has at each moment, whoever writes it.
    ghost images: { ℕ → Image };

    /// The moment at which it was opened.
    ghost opened: { ℕ };

    /// The moment of now: the last call ended by then, and the next one begins no earlier.
    ghost now: { Self → ℕ };

    /// So far each read gave a sector that the disk had at some moment between the beginning of the read and its end. This may fall at any
    /// call, for good, and no code can tell.
    ghost shared: { Self → Type 0 };

    /// Reads a sector, and nothing that was read before. After a fault the buffer holds any bytes.
    fn read_anew(&mut self, at: u64, into: &mut [u8; SECTOR_BYTES]) -> Result<(), DiskFault>
        requires { at < Self.sectors self.old }
        ensures disk { OnlyReads Self.sectors Self.honest Self.history self.old self.new }
        ensures faults { CountsFault result (Self.faults self.old) (Self.faults self.new) }
        ensures gives { Self.honest self.new → OnOk result (into.new ≡ seen (Self.history self.old) at) }
        ensures since { opened ≤ now self.old }
        ensures later { GoesOn shared now self.old self.new }
        ensures shows { shared self.new → OnOk result (IsOf images (now self.old) (now self.new) at into.new) };
}
