//! Why a disk isn't copied.

use generations::StoreFault;
use thiserror::Error;

/// Why no copy was made. What was written to the other disk by then is no copy.
#[derive(Clone, Copy, Debug, Error)]
pub enum CopyFault {
    /// The disk has no live root or no whole journal, it can't be read, or an allocation failed.
    #[error("the disk can't be copied: {0}")]
    Store(StoreFault),
    /// The root is another one than it was as the copy began, or the other disk has fewer sectors: the copy is to begin anew.
    #[error("the disk has another root now")]
    Moved,
    /// A call of the other disk failed.
    #[error("the copy can't be written")]
    Write,
}
