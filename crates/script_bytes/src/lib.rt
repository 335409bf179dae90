//! How the scripts of test programs spell words, numbers, bytes and sectors.
//!
//! The functions have no contracts: each answer of a script is compared with the answer that a program in `model/` wrote for it.
#![tactic(auto)]

mod answers;
mod lines;
mod numbers;
mod reading;
mod sectors;
mod writing;

pub use answers::Answer;
pub use lines::{clipped, expanded, number_in, parted, short};
pub use numbers::{choices_of, numbers_in};
pub use reading::add_bytes;
pub use sectors::{sector_of, used_part};
pub use writing::{digest, spelled, spelled_briefly};
