//! The archive that was published last on a disk: where it is, by the disk's root, and its bytes, copied to a writer. The map isn't read.
#![tactic(auto)]

mod copying;
mod finding;

pub use copying::{CopyFault, copy_archive};
pub use finding::find_archive;
pub use published_tiles::ArchivePlace;
