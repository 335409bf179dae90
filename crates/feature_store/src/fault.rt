//! Why a text is no snapshot.

ghost use Rattle.std.specs.Prelude.{◌≡◌};
ghost use Rattle.feature_store.specs.declared.fault.SnapshotFault.TheVariants.{Memory};

use std::alloc::{AllocError, AllocFailed};
use thiserror::Error;

/// Why a map isn't made from a text.
#[derive(Clone, Copy, Debug, Error)]
pub enum SnapshotFault {
    /// The text is the snapshot of no map.
    #[error("the snapshot of no map")]
    Bad,
    /// Out of memory.
    #[error("out of memory")]
    Memory,
}

impl<T: Drop> From<AllocFailed<T>> for SnapshotFault {
    ghost from_gives = { λ _ e. e ≡ Memory };

    fn from(_e: AllocFailed<T>) -> SnapshotFault {
        SnapshotFault::Memory
    }
}

impl From<AllocError> for SnapshotFault {
    ghost from_gives = { λ _ e. e ≡ Memory };

    fn from(_e: AllocError) -> SnapshotFault {
        SnapshotFault::Memory
    }
}
