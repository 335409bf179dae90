//! The limits of the wire format (Protocol Buffers, "Encoding", "Message Structure").

/// The greatest field number.
pub const MAX_FIELD: u32 = 536_870_911;

/// The wire type of a varint.
pub const WIRE_VARINT: u64 = 0;

/// The wire type of eight bytes.
pub const WIRE_I64: u64 = 1;

/// The wire type of bytes after their length: a text, a nested message, or packed numbers.
pub const WIRE_LEN: u64 = 2;

/// The wire type of four bytes.
pub const WIRE_I32: u64 = 5;
