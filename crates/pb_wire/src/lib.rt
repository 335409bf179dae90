//! The wire format of Protocol Buffers ("Encoding", protobuf.dev): numbers of seven bits a byte, signed numbers as
//! unsigned ones, and the fields of a message.
#![tactic(auto)]

mod fault;
mod fields;
mod limits;
mod reading;
mod signed;
mod varint;

pub use fault::{FaultKind, WireFault};
pub use fields::{Field, FieldValue, Fields};
pub use limits::{MAX_FIELD, WIRE_I32, WIRE_I64, WIRE_LEN, WIRE_VARINT};
pub use signed::{unzigzag, zigzag};
pub use varint::{get_varint, put_varint};
