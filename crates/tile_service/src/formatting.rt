//! Formats and upgrades a disk for a service.
ghost use Rattle.std.specs.Prelude.{◌≡◌, ◌⊎◌, ◌<◌, ◌↔◌, ℕ, Err, IfErr, OnOk};
ghost use Rattle.sector_disk.specs.Asked.{MayWrite};
ghost use Rattle.sector_disk.specs.Disk.{Image, MayLeave, seen};
ghost use Rattle.sector_disk.specs.Disk.History.{synced};
ghost use Rattle.sector_disk.specs.Moments.{LeavesOnly};
ghost use Rattle.generations.specs.Areas.{IsSize};
ghost use Rattle.generations.specs.Disks.{HasNoMark, IsFaultOf};
ghost use Rattle.generations.specs.Faults.{EndsFormat, TellsDevice};
ghost use Rattle.generations.specs.Sectors.{version_from};
ghost use Rattle.generations.specs.Upgrades.{IsUpgraded, Upgrades};
ghost use Rattle.generations.specs.declared.fault.StoreFault.TheVariants.{NotFormatted, TooSmall, Device, Damaged};
ghost use Rattle.generations.specs.declared.fault.What.TheVariants.{Size};
ghost use Rattle.generations.specs.declared.sizes.TheConstants.{MIN_SECTORS, MAX_SECTORS, LAST_VERSION};
ghost use Rattle.tile_service.specs.Stored.{Stored, Holds, Keeps, first_state, upgraded};

use crate::service::Service;
use generations::{StoreFault, format, upgrade};
use sector_disk::Sectors;

impl<D: Sectors + Drop> Service<D> {
    /// Formats a disk of `MIN_SECTORS` to `MAX_SECTORS` sectors with the empty map; any other is left untouched. Its content is lost:
    /// after a fault of the disk or a crash it holds its earlier content, or has no format, or holds the empty map.
    pub fn format(disk: &mut D) -> Result<(), StoreFault>
        ensures ends { EndsFormat (D.sectors disk.old) result }
        ensures untouched { (IsSize (D.sectors disk.old) → ⊥) → disk.new ≡ disk.old }
        ensures disk { MayWrite D.sectors D.honest disk.old disk.new }
        ensures failed { TellsDevice result (D.faults disk.old) (D.faults disk.new) }

        // A crash during the call leaves an image from before, or one without a format mark, or one with the empty map.
        ensures any_moment { D.honest disk.new → LeavesOnly (D.history disk.old) (D.history disk.new)
            (λ image. MayLeave (D.history disk.old) image ⊎ HasNoMark image ⊎ Holds (D.sectors disk.old) (D.sectors disk.old) first_state image) }
        ensures formatted { D.honest disk.new
            → OnOk result (Keeps (D.sectors disk.old) (D.sectors disk.old) first_state (D.history disk.new)) }
    {
        format(disk)
    }

    /// Upgrades the disk to the last version, which takes batches. On a disk of that version it only syncs and reads. What the disk
    /// holds stays the same. A crash during the call leaves it in either version.
    ///
    /// # Errors
    ///
    /// `NotFormatted`, or `Damaged(Size)` if the disk has no format of a known version: nothing is written. `Device` if a call of the
    /// disk fails: the disk has either version.
    pub fn upgrade(disk: &mut D) -> Result<(), StoreFault>
        ensures disk { MayWrite D.sectors D.honest disk.old disk.new }
        ensures failed { TellsDevice result (D.faults disk.old) (D.faults disk.new) }
        ensures only { IfErr result (λ fault. (fault ≡ NotFormatted) ⊎ (fault ≡ Damaged Size) ⊎ (fault ≡ Device)) }
        ensures fault { D.honest disk.new
            → IfErr result (λ fault. (fault ≡ Device) ⊎ IsFaultOf (D.sectors disk.old) (seen (D.history disk.old)) fault) }

        // Nothing is written on any other error, nor to a disk of the last version.
        ensures unwritten { D.honest disk.new → IfErr result (λ fault. (fault ≡ Device) ⊎ (D.history disk.new ≡ synced (D.history disk.old))) }
        ensures already { D.honest disk.new → version_from (seen (D.history disk.old) 0) ≡ LAST_VERSION
            → (D.history disk.new ≡ D.history disk.old) ⊎ (D.history disk.new ≡ synced (D.history disk.old)) }

        // A crash during the call leaves what it might have left before, or what reads gave with the format of the last version; after
        // success the latter. Whatever it returns, a read gives of each other sector what it gave.
        ensures leaves { D.honest disk.new
            → LeavesOnly (D.history disk.old) (D.history disk.new) (Upgrades (D.sectors disk.old) (D.history disk.old)) }
        ensures rewritten { D.honest disk.new → OnOk result ((image : Image)
            → MayLeave (D.history disk.new) image → IsUpgraded (D.sectors disk.old) (seen (D.history disk.old)) image) }
        ensures others { D.honest disk.new → (at : ℕ) → (at ≡ 0 → ⊥) → seen (D.history disk.new) at ≡ seen (D.history disk.old) at }

        // Of a disk that holds a state: a crash leaves an image from before, or what the disk holds in the last version.
        ensures any_moment { (n : ℕ) (stored : Stored) → D.honest disk.new → Holds (D.sectors disk.old) n stored (seen (D.history disk.old))
            → LeavesOnly (D.history disk.old) (D.history disk.new)
            (λ image. MayLeave (D.history disk.old) image ⊎ Holds (D.sectors disk.old) n (upgraded stored) image) }
        ensures upgraded { (n : ℕ) (stored : Stored) → D.honest disk.new → Holds (D.sectors disk.old) n stored (seen (D.history disk.old))
            → OnOk result (Keeps (D.sectors disk.new) n (upgraded stored) (D.history disk.new)) }

        // Of a disk that holds a state only a call of the disk can fail.
        ensures refused { (n : ℕ) (stored : Stored) → D.honest disk.new → Holds (D.sectors disk.old) n stored (seen (D.history disk.old))
            → IfErr result (λ fault. fault ≡ Device) }
    {
        upgrade(disk)
    }
}
