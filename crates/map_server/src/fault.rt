//! The faults of making a disk file.
use generations::StoreFault;
use std::io;
use thiserror::Error;

/// Why no disk was made in a file.
#[derive(Debug, Drop, Error)]
pub enum FileFault {
    /// The file can't be made, or its folder not be synced, with the system's error.
    #[error("the file could not be made: {0}")]
    File(io::Error),
    /// The disk can't be formatted.
    #[error("the disk could not be formatted: {0}")]
    Store(StoreFault),
}
