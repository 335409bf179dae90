//! A copy of a disk as of one moment: its format, its live root, the area and the records of the journal that the root names.
#![tactic(auto)]

mod copying;
mod fault;
mod first;
mod records;
mod sectors;
mod shared;
mod watched;

pub use copying::copy_disk;
pub use fault::CopyFault;
pub use shared::SharedSectors;
pub use watched::{AnyMoments, Moments, Reads, SharedDisk};
