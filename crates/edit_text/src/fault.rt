//! Why bytes are not read as an edit.

ghost use Rattle.edit_text.specs.declared.fault.TextFault.TheVariants.{Memory};
ghost use Rattle.std.specs.Prelude.{◌≡◌};

use std::alloc::{AllocError, AllocFailed};
use thiserror::Error;

/// Why some bytes don't begin with the text of an edit.
#[derive(Clone, Copy, Debug, Error)]
pub enum TextFault {
    /// Fewer than `MAX_EDIT_BYTES` bytes, which end before the text does, and each field that is whole among them is allowed.
    #[error("the text of an edit is cut short")]
    Cut,
    /// Bytes that begin no text of an edit.
    #[error("no text of an edit")]
    Bad,
    /// Out of memory.
    #[error("out of memory")]
    Memory,
}

impl<T: Drop> From<AllocFailed<T>> for TextFault {
    ghost from_gives = { λ _ e. e ≡ Memory };

    fn from(_e: AllocFailed<T>) -> TextFault {
        TextFault::Memory
    }
}

impl From<AllocError> for TextFault {
    ghost from_gives = { λ _ e. e ≡ Memory };

    fn from(_e: AllocError) -> TextFault {
        TextFault::Memory
    }
}
