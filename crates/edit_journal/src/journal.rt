//! The records in use in a ring of sectors.
ghost use Rattle.std.specs.Prelude.{◌≡◌, ◌≤◌, ◌<◌, ◌+◌, ◌-◌, ◌%◌, ◌^◌};

/// Where the records in use begin.
#[derive(Clone, Copy, Debug)]
pub struct JournalPosition {
    /// The place of the first of them, or of the next one if there is none.
    pub place: u64,
    /// How many edits came before it: its number is one more.
    pub edits: u64,
}

/// The records in use in a ring of sectors. The places after them are free.
#[derive(Clone, Copy)]
pub struct Journal {
    /// The sector that is place 0.
    pub first: u64,
    /// How many places the ring has.
    pub places: u64,
    /// The place of the first record in use.
    pub place: u64,
    /// How many edits came before it: its number is one more.
    pub edits: u64,
    /// How many places the records in use have.
    pub used: u64,
    /// The number of the last record, from 1 on, or 0 if there was none yet.
    pub last: u64,
    ghost begins: { place < places },
    ghost room: { used ≤ places },
    ghost counts: { edits ≤ last },
    ghost small: { first + places < 2 ^ 64 },
}

impl Journal {
    /// How many places are free.
    pub fn free(&self) -> u64
        ensures { result ≡ self.now.places - self.now.used }
    {
        self.places - self.used
    }

    /// The place that is `offset` places after the first record in use. Place 0 comes after the last one.
    pub(crate) fn place_of(&self, offset: u64) -> u64
        requires { offset ≤ self.now.places }
        ensures is { result ≡ (self.now.place + offset) % self.now.places }
        ensures within { result < self.now.places }
    {
        let to_end = self.places - self.place;
        if offset < to_end {
            self.place + offset
        } else {
            offset - to_end
        }
    }

    /// Where the next record begins.
    pub fn next(&self) -> JournalPosition
        ensures { (result.place ≡ (self.now.place + self.now.used) % self.now.places) × (result.edits ≡ self.now.last) }
    {
        JournalPosition {
            place: self.place_of(self.used),
            edits: self.last,
        }
    }
}
