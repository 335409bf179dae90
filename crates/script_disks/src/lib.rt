//! What the parts of the script of disks share: commands with numbers and bytes, disks with failing calls, and writers that take only so much.
//!
//! The functions have no contracts: each answer of a script is compared with the answer that a program in `model/` wrote for it.
#![tactic(auto)]

mod commands;
mod narrow;
mod sectors;

pub use commands::{ANY, Operands, asked, keep, operands_in, pair_in};
pub use narrow::{Narrow, Narrowness, WIDE};
pub use sectors::{Fails, crashed, sector_at, tell_used_sectors};
