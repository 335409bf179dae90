//! A disk of sectors, and what a crash may leave of it.
#![tactic(auto)]

mod disk;
mod disk_memory;
mod faults;
mod faulty;
mod memory;

pub use disk::{DiskFault, SECTOR_BYTES, Sectors};
pub use faults::Faults;
pub use faulty::{FailingCalls, FaultyDisk};
pub use memory::MemoryDisk;
