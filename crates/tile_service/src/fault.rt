//! The faults of a service.
use feature_model::EditFault;
use std::fmt::{self, Display};
use thiserror::Error;

/// Why an event is refused. Of several the first in this order is reported.
#[derive(Clone, Copy, Debug, Error)]
pub enum ServiceFault {
    /// A write or a sync of the disk has failed before, so edits are refused. The disk has to be opened again.
    Broken,
    /// A publication is under way.
    Busy,
    /// No publication is under way.
    Idle,
    /// The disk has version 1, which takes no batches. It has to be upgraded.
    NeedsUpgrade,
    /// The feature, or a change of the batch, breaks this limit.
    Limit(EditFault),
    /// No feature has an id that is to be deleted.
    NotFound,
    /// The last edit, or the published generation, has number `u64::MAX`.
    NumbersSpent,
    /// An allocation failed.
    Memory,
    /// The tiles of the map need more entries than an archive takes.
    TooManyTiles,
    /// The snapshot of the map and the archive need more sectors than an area has.
    AreaFull { need: u64, free: u64 },
    /// The record of the edit needs more sectors than the journal has free.
    JournalFull { need: u64, free: u64 },
    /// A call of the disk failed.
    Device,
}

impl Display for ServiceFault {
    fn fmt<W: fmt::Write>(&self, f: &mut fmt::Formatter<W>) -> fmt::Result {
        let words = match self {
            ServiceFault::Broken => "the disk has failed: it has to be opened again",
            ServiceFault::Busy => "a publication is under way",
            ServiceFault::Idle => "no publication is under way",
            ServiceFault::NeedsUpgrade => "the disk has version 1: it has to be upgraded",
            ServiceFault::Limit(fault) => return fault.fmt(f),
            ServiceFault::NotFound => "the number has no feature",
            ServiceFault::NumbersSpent => "there are no more numbers",
            ServiceFault::Memory => "out of memory",
            ServiceFault::TooManyTiles => "the map has more tiles than an archive takes",
            ServiceFault::AreaFull { need, free } => {
                return write!(f, "an area has {free} sectors, and {need} are needed");
            }
            ServiceFault::JournalFull { need, free } => {
                return write!(
                    f,
                    "the journal has {free} free sectors, and {need} are needed"
                );
            }
            ServiceFault::Device => "a call of the disk failed",
        };
        f.write_str(words)
    }
}
