//! Where the archive is.
ghost use Rattle.std.specs.Prelude.{◌≡◌, ◌⊎◌, ◌≤◌, ◌+◌, ℕ, IfOk, IfErr, MatchResult};
ghost use Rattle.archive_export.specs.Finds.{IsOfLiveRoot};
ghost use Rattle.generations.specs.Areas.{sectors_of};
ghost use Rattle.generations.specs.Disks.{IsFaultOf};
ghost use Rattle.generations.specs.Faults.{TellsDevice};
ghost use Rattle.generations.specs.declared.fault.StoreFault.TheVariants.{Device};
ghost use Rattle.sector_bytes.specs.Source.{AreItsBytes};
ghost use Rattle.sector_disk.specs.Asked.{OnlyReads};
ghost use Rattle.sector_disk.specs.Disk.{seen};
ghost use Rattle.tile_service.specs.Stored.{Stored, Holds};

use generations::{Found, StoreFault, read_root};
use published_tiles::ArchivePlace;
use sector_disk::Sectors;

/// Where a disk has the archive that was published last; its length is 0 if there is none. It reads three sectors, allocates nothing
/// and writes nothing.
///
/// # Errors
///
/// `NotFormatted`, `Damaged` of `Size` or `RootSector`, and `Device`, as `generations::read_root`.
pub fn find_archive<D: Sectors>(disk: &mut D) -> Result<ArchivePlace, StoreFault>
    ensures disk { OnlyReads D.sectors D.honest D.history disk.old disk.new }
    ensures failed { TellsDevice result (D.faults disk.old) (D.faults disk.new) }
    ensures on_disk { IfOk result (λ place. place.first + sectors_of place.len ≤ D.sectors disk.new) }
    ensures found { D.honest disk.new → IfOk result (IsOfLiveRoot (D.sectors disk.old) (seen (D.history disk.old))) }
    // A disk that holds a state has the state's archive there; only a call of the disk can fail.
    ensures held { (n : ℕ) (stored : Stored) → Holds (D.sectors disk.old) n stored (seen (D.history disk.old)) → D.honest disk.new
        → MatchResult result (λ place. AreItsBytes place.first place.len stored.archive (seen (D.history disk.old))) (λ fault. fault ≡ Device) }
    ensures fault { D.honest disk.new
        → IfErr result (λ fault. (fault ≡ Device) ⊎ IsFaultOf (D.sectors disk.old) (seen (D.history disk.old)) fault) }
{
    match read_root(disk) {
        Ok(Found { layout, root, .. }) => Ok(ArchivePlace {
            generation: root.generation,
            first: layout.archive_start(root),
            len: root.archive_len,
        }),
        Err(fault) => Err(fault),
    }
}
