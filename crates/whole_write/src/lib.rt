//! Bytes that are written whole, however few of them a write takes.
#![tactic(auto)]

mod writing;

pub use writing::write_whole;
