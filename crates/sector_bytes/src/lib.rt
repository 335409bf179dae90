//! Bytes stored in consecutive sectors of a disk, read from an offset on.
#![tactic(auto)]

mod reading;
mod source;

pub use reading::read_bytes;
pub use source::SectorBytes;
