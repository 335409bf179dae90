//! The commands `show` and `verify` over tile archives (PMTiles 3) written by any program.
#![tactic(auto)]

mod putting;
mod showing;
mod verdict;
mod verifying;

pub use pm_archive::ArchiveFault;
pub use showing::{ShowFault, show};
pub use verdict::Verdict;
pub use verifying::{verify, verify_source, verify_stored};
