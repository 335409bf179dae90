//! The last edits, as the journal's ring has them.
ghost use Rattle.std.specs.Prelude.{◌≡◌, ◌≤◌, ◌<◌, ◌+◌, ◌++◌, List, length, IfOk};
ghost use Rattle.sector_disk.specs.Asked.{OnlyReads};
ghost use Rattle.edit_journal.specs.Recovers.{TellsRecoverFault};
ghost use Rattle.edit_text.specs.Recorded.{RecordedEdit};
ghost use Rattle.tile_service.specs.Listing.{AreListed, listed_from, listed_records};
ghost use Rattle.tile_service.specs.Machine.{list_edits};
ghost use Rattle.tile_service.specs.Runs.{Takes};
ghost use Rattle.tile_service.specs.Service.{ShowsEdits, IsUp};
ghost use Rattle.tile_service.specs.Stored.{Stored};

use crate::service::Service;
use edit_journal::{JournalFault, Record};
use sector_disk::Sectors;

impl<D: Sectors + Drop> Service<D> {
    /// The records of the edits from a number on, in order: as many as have `bytes` bytes of text or more together, or up to the last
    /// edit. The number is that of an edit after the forgotten ones, or of the next edit. A broken service lists the edits that were
    /// acknowledged too, as long as its disk gives them. It writes nothing, and the service continues as before after an error.
    ///
    /// # Errors
    ///
    /// `Device` and `Memory`; `Damaged`, if the disk gives another record than was written.
    pub fn edits_from(&mut self, number: u64, bytes: usize) -> Result<Vec<Record>, JournalFault>
        requires number { (self.old.kept_journal.edits < number) × (number ≤ self.old.journal.last + 1) }
        // The edits are those that the disk has in the journal, for a broken service too: it is what happens, whatever a crash leaves.
        ensures takes { Takes D.sectors D.honest D.history self.old (list_edits number bytes (listed_records result)) self.new }
        // Behind the last published one they are the first ones from that number on of those that are stored: every image that a crash now
        // leaves has them.
        ensures read { (stored : Stored) → IsUp (D.sectors self.old.disk) (D.history self.old.disk) stored self.old → D.honest self.new.disk
            → stored.edits < number → AreListed (listed_from stored.edits stored.since number bytes) (listed_records result) }
        // A service that continues from what is stored shows the edits since its snapshot, and maybe some before those.
        ensures shows { (stored : Stored) → IsUp (D.sectors self.old.disk) (D.history self.old.disk) stored self.old
            → (older : List RecordedEdit) × ShowsEdits (D.history self.old.disk) self.old (older ++ stored.since) }
        // They have numbers up to the last edit's.
        ensures counted { IfOk result (λ found. number + length found.items ≤ self.old.journal.last + 1) }
        ensures same { self.new ≡ record self.old { disk = self.new.disk } }
        ensures disk { OnlyReads D.sectors D.honest D.history self.old.disk self.new.disk }
        ensures failed { TellsRecoverFault result (D.faults self.old.disk) (D.faults self.new.disk) }
        ensures up { (stored : Stored) → IsUp (D.sectors self.old.disk) (D.history self.old.disk) stored self.old → D.honest self.new.disk
            → IsUp (D.sectors self.new.disk) (D.history self.new.disk) stored self.new }
    {
        self.kept_journal
            .records_from(self.alloc, &mut self.disk, number, self.version, bytes)
    }
}
