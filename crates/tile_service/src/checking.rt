//! A check of the disk.
ghost use Rattle.std.specs.Prelude.{◌≡◌, ◌≢◌, IfErr, OnOk};
ghost use Rattle.sector_disk.specs.Asked.{MayWrite};
ghost use Rattle.sector_disk.specs.Moments.{LeavesOnly};
ghost use Rattle.tile_service.specs.Machine.{AnswersCheck};
ghost use Rattle.tile_service.specs.Service.{IsUp, Known, KeepsArchive, KeepsEdits, SyncsDisk, TellsDevice, state_of};
ghost use Rattle.tile_service.specs.Stored.{Stored, Holds};
ghost use Rattle.tile_service.specs.declared.fault.ServiceFault.TheVariants.{Device};

use crate::fault::ServiceFault;
use crate::service::Service;
use sector_disk::{DiskFault, Sectors};

impl<D: Sectors + Drop> Service<D> {
    /// Checks that the disk still works, by one sync: a disk that has failed is noticed before an edit needs it. It writes nothing and
    /// doesn't allocate.
    ///
    /// # Errors
    ///
    /// `Broken`, and the disk isn't called; `Device`. After `Device` the service is broken, and the publication is cancelled.
    pub fn check(&mut self) -> Result<(), ServiceFault>
        ensures machine { (known : Known) → AnswersCheck (state_of known self.old) result (state_of known self.new) }
        ensures same { self.new ≡ record self.old { disk = self.new.disk; publication = self.new.publication; broken = self.new.broken } }
        ensures refused { IfErr result (λ fault. fault ≢ Device → self.new ≡ self.old) }
        ensures disk { MayWrite D.sectors D.honest self.old.disk self.new.disk }
        ensures failed { TellsDevice result (D.faults self.old.disk) (D.faults self.new.disk) }

        // It makes one sync, and nothing else.
        ensures synced { D.honest self.new.disk → SyncsDisk result (D.history self.old.disk) (D.history self.new.disk) }

        // The archive that it serves is unchanged, after `Device` too.
        ensures archive { KeepsArchive D.honest D.history self.old self.new }

        // It shows the edits that it showed.
        ensures edits { KeepsEdits D.honest D.history self.old self.new }

        // A crash during the call leaves what was stored, and after it the service continues from that.
        ensures any_moment { (stored : Stored) → D.honest self.new.disk → IsUp (D.sectors self.old.disk) (D.history self.old.disk) stored self.old
            → LeavesOnly (D.history self.old.disk) (D.history self.new.disk) (Holds (D.sectors self.old.disk) self.old.size stored) }
        ensures after { (stored : Stored) → D.honest self.new.disk → IsUp (D.sectors self.old.disk) (D.history self.old.disk) stored self.old
            → OnOk result (IsUp (D.sectors self.new.disk) (D.history self.new.disk) stored self.new) }
    {
        if self.broken {
            return Err(ServiceFault::Broken);
        }
        match self.disk.sync() {
            Ok(()) => Ok(()),
            Err(DiskFault) => {
                self.broken = true;
                self.publication = None;
                Err(ServiceFault::Device)
            }
        }
    }
}
