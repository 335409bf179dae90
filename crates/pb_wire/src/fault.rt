//! What can be wrong with a message.

use std::fmt;
use thiserror::Error;

/// What is wrong with the bytes of a message.
#[derive(Clone, Copy, Debug, PartialEq, Eq, Error)]
pub enum FaultKind {
    /// The bytes end inside a number or a value.
    Cut,
    /// A number's tenth byte is above 1: the number is longer than ten bytes or exceeds 64 bits.
    Varint,
    /// The number of a field is 0 or above 536,870,911.
    Number,
    /// The wire type is 3, 4, 6 or 7.
    WireType,
}

impl fmt::Display for FaultKind {
    fn fmt<W: fmt::Write>(&self, f: &mut fmt::Formatter<W>) -> fmt::Result {
        f.write_str(match self {
            FaultKind::Cut => "the bytes end inside a number or a value",
            FaultKind::Varint => "a number is longer than ten bytes or passes 64 bits",
            FaultKind::Number => "the number of a field is 0 or above 536,870,911",
            FaultKind::WireType => "no such wire type",
        })
    }
}

/// A fault of a message, or of a single number.
#[derive(Clone, Copy, Debug, PartialEq, Eq, Error)]
#[error("{kind}, in the field at byte {at}")]
pub struct WireFault {
    /// The offset of the key of the field with the fault, in bytes from the start of the message; 0 for a single number.
    pub at: usize,
    /// What is wrong there.
    pub kind: FaultKind,
}
