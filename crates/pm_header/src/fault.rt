//! What is wrong with bytes that don't begin with a header.

use thiserror::Error;

/// Why bytes don't begin with a header.
#[derive(Clone, Copy, Debug, PartialEq, Eq, Error)]
pub enum HeaderFault {
    /// There are fewer than 127 bytes.
    #[error("fewer than 127 bytes")]
    Short,
    /// The first seven bytes aren't `PMTiles`.
    #[error("the bytes do not begin with PMTiles")]
    Magic,
    /// The version, the byte after these, isn't 3.
    #[error("version {0} is not read")]
    Version(u8),
}
