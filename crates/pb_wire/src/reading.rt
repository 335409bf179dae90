//! Reads the first field of a message.

ghost use Rattle.std.specs.Prelude.{◌≡◌, ℕ, ◌+◌, ◌<◌, ◌≤◌, ◌^◌, ◌%◌, length, IfOk, IsTrue};
ghost use Rattle.reader.specs.Reading.{Reads};
ghost use Rattle.pb_wire.specs.Lengths.{has_its_length};
ghost use Rattle.pb_wire.specs.Message.{value_at, field_at, front_at, value_view, field_view};

use crate::fault::FaultKind;
use crate::fields::{Field, FieldValue};
use crate::limits::{MAX_FIELD, WIRE_I32, WIRE_I64, WIRE_LEN, WIRE_VARINT};
use crate::varint::read;

/// The first `len` bytes, or `Cut` if there are fewer.
fn front(bytes: &[u8], len: usize) -> Result<&[u8], FaultKind>
    ensures long { IfOk result (λ x. length x.now ≡ len) }
    ensures exact { Reads (λ x. x.now) result (front_at len bytes.now) }
{
    if bytes.len() < len {
        return Err(FaultKind::Cut);
    }
    Ok(&bytes[..len])
}

/// The value of this wire type at the start of the bytes, and its length in bytes.
#[tactic(auto, unfolding(crate::specs::Message::value_at))]
fn value_of(wire: u64, bytes: &[u8]) -> Result<(FieldValue<'_>, usize), FaultKind>
    ensures within { IfOk result (λ r. r.1 ≤ length bytes.now) }
    ensures fixed { IfOk result (λ r. IsTrue (has_its_length r.0)) }
    ensures exact { Reads (λ x. (value_view x.0, x.1)) result (value_at wire bytes.now) }
{
    match wire {
        WIRE_VARINT => {
            let (n, len) = read(bytes)?;
            Ok((FieldValue::Varint(n), len))
        }
        WIRE_I64 => Ok((FieldValue::Eight(front(bytes, 8)?), 8)),
        WIRE_LEN => {
            let (n, len) = read(bytes)?;
            let rest = &bytes[len..];
            if (rest.len() as u64) < n {
                return Err(FaultKind::Cut);
            }
            let n = n as usize;
            Ok((FieldValue::Bytes(&rest[..n]), len + n))
        }
        WIRE_I32 => Ok((FieldValue::Four(front(bytes, 4)?), 4)),
        _ => Err(FaultKind::WireType),
    }
}

/// The field at the start of the bytes, and its length in bytes.
#[tactic(auto, unfolding(crate::specs::Message::field_at))]
pub(crate) fn field_of(bytes: &[u8]) -> Result<(Field<'_>, usize), FaultKind>
    ensures within { IfOk result (λ r. (0 < r.1) × (r.1 ≤ length bytes.now)) }
    ensures exact { Reads (λ x. (field_view x.0, x.1)) result (field_at bytes.now) }
{
    let (key, len) = read(bytes)?;
    let number = key / 8;
    if number == 0 || number > u64::from(MAX_FIELD) {
        return Err(FaultKind::Number);
    }
    let (value, value_len) = value_of(key % 8, &bytes[len..])?;
    let number = number as u32;
    Ok((Field { number, value }, len + value_len))
}
