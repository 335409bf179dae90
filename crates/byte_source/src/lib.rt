//! Bytes that can be read at any offset: in memory, in a file, or in the sectors of a disk.
#![tactic(auto)]

mod source;

pub use source::{Bytes, ReadFault};
