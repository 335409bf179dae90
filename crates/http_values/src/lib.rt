//! What stands in the heads of requests and of replies: numbers in decimal digits, ranges of bytes, and statuses.
#![tactic(auto)]

mod digits;
mod positions;
mod ranges;
mod status;

pub use digits::{MAX_DIGITS, are_digits, digits_number, push_number, push_text};
pub use positions::MAX_POSITION_DIGITS;
pub use ranges::{ByteRange, at_most_one_range, byte_range};
pub use status::Status;
