//! The directories of a tile archive: which tiles it has, and where each content is stored (PMTiles 3, 4).
#![tactic(auto)]

mod entry;
mod fault;
mod lookup;
mod numbers;
mod reading;
mod writing;

pub use entry::DirectoryEntry;
pub use fault::DirectoryFault;
pub use lookup::find;
pub use reading::read_directory;
pub use writing::write_directory;
