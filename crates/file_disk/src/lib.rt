//! A disk of sectors in a file: what its file is asked, and what these calls make of the disk.
#![tactic(auto)]

mod ahead;
mod behind;
mod file;
mod record;
mod recorded;
mod run;
mod start;

pub use file::{FileDisk, FileFault, NewFile, SectorFile, SystemFile, fill, new_file};
pub use run::{RUN_SECTORS, Run};
pub use start::{Start, Unknown, Zeros};
