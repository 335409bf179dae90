//! The release of records that are no longer needed.
ghost use Rattle.std.specs.Prelude.{◌≡◌, ◌≤◌, ◌+◌, ◌-◌, ◌%◌, ℕ, List, length, take, drop};
ghost use Rattle.sector_disk.specs.Disk.{History};
ghost use Rattle.edit_journal.specs.Records.{RecordData};
ghost use Rattle.edit_journal.specs.Ring.{places_of};
ghost use Rattle.edit_journal.specs.Appends.{ring_of, IsAt};
ghost use Rattle.edit_journal.specs.Releases.{IsBehind, IsCounted};
ghost use Rattle.edit_journal.specs.Kept.{GoesBack, HasOlder};

use crate::journal::{Journal, JournalPosition};

impl Journal {
    /// How many places lie between the first record in use and a start.
    fn places_before(&self, start: JournalPosition) -> u64
        requires { (behind : ℕ) × IsBehind self.now start behind }
        ensures { (behind : ℕ) → IsBehind self.now start behind → result ≡ behind }
    {
        if start.edits == self.edits {
            0
        } else if self.place < start.place {
            start.place - self.place
        } else {
            self.places - (self.place - start.place)
        }
    }

    /// Begins a publication of the edits so far: where the next record begins, and how many places are in use. No place is freed before `release`:
    /// until the publication is live, an opening reads the records from all of them.
    pub fn begin(&mut self) -> (JournalPosition, u64)
        ensures same { self.new ≡ self.old }
        ensures start { (result.0.place ≡ (self.old.place + self.old.used) % self.old.places) × (result.0.edits ≡ self.old.last) }
        ensures places { result.1 ≡ self.old.used }
    {
        (self.next(), self.used)
    }

    /// Frees the places of the first records in use: of all that come before a start that `next` gave since the first of them was
    /// written. Nothing is written: the disk has the records until they are overwritten.
    pub fn release(&mut self, start: JournalPosition)
        requires { (behind : ℕ) × IsBehind self.old start behind }
        ensures same { (ring_of self.new ≡ ring_of self.old) × (self.new.last ≡ self.old.last) }
        ensures start { (self.new.place ≡ start.place) × (self.new.edits ≡ start.edits) }
        ensures freed { (behind : ℕ) → IsBehind self.old start behind → self.new.used + behind ≡ self.old.used }
        ensures counted { IsCounted self.new }

        // Of the records in use those after the start are left.
        ensures kept { (records : List RecordData) (count : ℕ) (history : History) → IsAt records self.old history → count ≤ length records
            → start.edits ≡ self.old.edits + count → start.place ≡ (self.old.place + places_of (take count records)) % self.old.places
            → IsAt (drop count records) self.new history }

        // A journal that goes back from this one goes on to do so: it has the records that are released.
        ensures back { (kept : Journal) → GoesBack kept self.old → GoesBack kept self.new }
        ensures older { (kept : Journal) (records : List RecordData) (count : ℕ) (history : History) → HasOlder records kept self.old history
            → self.old.edits + count ≤ self.old.last → start.edits ≡ self.old.edits + count
            → start.place ≡ (self.old.place + places_of (take count (drop (self.old.edits - kept.edits) records))) % self.old.places
            → kept.edits ≤ self.old.edits → HasOlder records kept self.new history }
    {
        let behind = self.places_before(start);
        self.used -= behind;
        self.place = start.place;
        self.edits = start.edits;
    }
}
