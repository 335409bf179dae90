//! A map from numbers to values in which a change moves few entries, however many there are.
//!
//! The entries are stored in blocks, ascending by number: a change moves entries of one block, and blocks in their list.
//! Memory for an entry is allocated beforehand, so that a change allocates nothing.
#![tactic(auto)]

mod block;
mod blocks;
mod number_map;

pub use block::{Block, Entry};
pub use number_map::NumberMap;
