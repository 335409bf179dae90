//! The fields of a message.

ghost use Rattle.std.specs.Prelude.{ℕ, ◌+◌, ◌<◌, ◌≤◌, ◌^◌, length, IsTrue};
ghost use Rattle.pb_wire.specs.declared.limits.TheConstants.{MAX_FIELD};
ghost use Rattle.pb_wire.specs.Lengths.{has_its_length};

use crate::fault::WireFault;
use crate::reading::field_of;

/// The value of a field, by its wire type. A value that is not a number borrows its part of the message's bytes.
#[derive(Clone, Copy, Debug)]
pub enum FieldValue<'a> {
    /// A number (`WIRE_VARINT`).
    Varint(u64),
    /// Eight bytes (`WIRE_I64`).
    Eight(&'a [u8]),
    /// Bytes after their length: a text, a nested message, or packed numbers (`WIRE_LEN`).
    Bytes(&'a [u8]),
    /// Four bytes (`WIRE_I32`).
    Four(&'a [u8]),
}

/// A field of a message (Protocol Buffers, "Encoding", "Message Structure"). `Eight` and `Four` have their length.
#[derive(Clone, Copy, Debug)]
pub struct Field<'a> {
    /// The field's number, 1 to `MAX_FIELD`.
    pub number: u32,
    pub value: FieldValue<'a>,
    pub ghost fixed: { IsTrue (has_its_length value) },
    pub ghost numbered: { (0 < number) × (number ≤ MAX_FIELD) },
}

/// Iterates over the fields of a message, in the order of their bytes. A fault is the last item: nothing after it is
/// read.
///
/// A field's faults are checked in this order: its key is cut or overlong; its number is out of range; its wire type is
/// not one of 0, 1, 2 and 5; its value is cut or overlong. No item allocates.
#[derive(Drop)]
pub struct Fields<'a> {
    rest: &'a [u8],
    at: usize,
    ghost fits: { at + length rest.now < 2 ^ 64 },
}

impl<'a> Fields<'a> {
    ghost use Rattle.std.specs.Prelude.{◌≡◌};
    ghost use Rattle.pb_wire.specs.Items.{fields_rest, items_of};

    /// The fields of the message in `bytes`.
    pub fn new(bytes: &'a [u8]) -> Self
        ensures { fields_rest result ≡ items_of bytes.entry.now }
    {
        Fields { rest: bytes, at: 0 }
    }
}

impl<'a> Iterator for Fields<'a> {
    type Item = Result<Field<'a>, WireFault>;

    ghost use Rattle.std.specs.Iterator.{YieldsFirstBy, item_count};
    ghost use Rattle.pb_wire.specs.Items.{fields_rest, item_view};

    ghost next_gives = { YieldsFirstBy item_view fields_rest };

    ghost remaining = { item_count fields_rest };

    #[inline(always)]
    fn next(&mut self) -> Option<Result<Field<'a>, WireFault>> {
        if self.rest.is_empty() {
            return None;
        }
        let bytes = self.rest;
        let at = self.at;
        match field_of(bytes) {
            Ok((field, len)) => {
                self.rest = &bytes[len..];
                self.at = at + len;
                Some(Ok(field))
            }
            Err(kind) => {
                self.rest = &bytes[..0];
                Some(Err(WireFault { at, kind }))
            }
        }
    }
}
