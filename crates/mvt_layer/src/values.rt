//! Texts and values of tags.

ghost use Rattle.std.specs.Prelude.{◌≡◌, ℕ, ◌<◌, ◌^◌, negsuc, length};
ghost use Rattle.reader.specs.Reading.{Reads};
ghost use Rattle.std.specs.Option.{option_map};
ghost use Rattle.pb_wire.specs.Message.{field_view, value_view};
ghost use Rattle.pb_wire.specs.Items.{item_view};
ghost use Rattle.mvt_layer.specs.Tile.{tag_view};
ghost use Rattle.mvt_layer.specs.Reading.{has_kind as has_kind_of, plain_tag, zigzag_tag, text_at, value_after, meaning, last_value_in, tag_value_at};

use crate::fault::TileFault;
use crate::field_numbers::{
    BOOL_VALUE, DOUBLE_VALUE, FLOAT_VALUE, INT_VALUE, SINT_VALUE, STRING_VALUE, UINT_VALUE,
};
use crate::tile::TagValue;
use pb_wire::{Field, FieldValue, Fields, WireFault};

/// The text that the bytes are.
pub(crate) fn text_of(bytes: &[u8]) -> Result<&str, TileFault>
    ensures { Reads (λ t. t.now) result (text_at bytes.now) }
{
    match std::str::from_utf8(bytes) {
        Ok(text) => Ok(text),
        Err(_) => Err(TileFault::Utf8),
    }
}

/// The number `-1 - below`.
fn negative(below: u64) -> i64
    requires { below < 2 ^ 63 }
    ensures { result ≡ negsuc below }
{
    -(below as i64) - 1
}

/// Whether a value's field of this number has the wire type that it must have.
fn has_kind(number: u32, value: FieldValue<'_>) -> bool
    ensures { result ≡ has_kind_of number (value_view value.entry) }
{
    match value {
        FieldValue::Bytes(_) => number == STRING_VALUE,
        FieldValue::Four(_) => number == FLOAT_VALUE,
        FieldValue::Eight(_) => number == DOUBLE_VALUE,
        FieldValue::Varint(_) => number > DOUBLE_VALUE,
    }
}

/// The last field that says a value, after one item more.
fn value_behind<'a>(
    last: Option<Field<'a>>,
    item: Result<Field<'a>, WireFault>,
) -> Result<Option<Field<'a>>, TileFault>
    ensures { Reads (option_map field_view) result (value_after (option_map field_view last.entry) (item_view item.entry)) }
{
    match item {
        Err(_) => Err(TileFault::Wire),
        Ok(field) => {
            if 0 < field.number && field.number <= BOOL_VALUE {
                if !has_kind(field.number, field.value) {
                    return Err(TileFault::Kind);
                }
                match last {
                    Some(before) if before.number != field.number => Err(TileFault::Value),
                    _ => Ok(Some(field)),
                }
            } else {
                Ok(last)
            }
        }
    }
}

/// The last field that says a value; all that do have one number.
fn last_value<'a>(bytes: &'a [u8]) -> Result<Option<Field<'a>>, TileFault>
    ensures { Reads (option_map field_view) result (last_value_in bytes.entry.now) }
{
    let mut last = None;
    for item in Fields::new(bytes) {
        last = value_behind(last, item)?;
    }
    Ok(last)
}

/// The bytes of a number of 32 bits.
fn four_of(part: &[u8]) -> [u8; 4]
    requires { length part.now ≡ 4 }
    ensures { result ≡ part.now }
{
    let mut four = [0; 4];
    four.copy_from_slice(part);
    four
}

/// The bytes of a number of 64 bits.
fn eight_of(part: &[u8]) -> [u8; 8]
    requires { length part.now ≡ 8 }
    ensures { result ≡ part.now }
{
    let mut eight = [0; 8];
    eight.copy_from_slice(part);
    eight
}

/// The number whose two's complement is `n`.
fn plain(n: u64) -> TagValue<'static>
    ensures { tag_view result ≡ plain_tag n }
{
    if n < 1 << 63 {
        TagValue::Natural(n)
    } else {
        TagValue::Negative(negative(u64::MAX - n))
    }
}

/// The number whose zigzag encoding is `n`.
fn signed(n: u64) -> TagValue<'static>
    ensures { tag_view result ≡ zigzag_tag n }
{
    if n % 2 == 0 {
        TagValue::Natural(n / 2)
    } else {
        TagValue::Negative(negative(n / 2))
    }
}

/// The value that a field says by its number and its wire type.
#[tactic(auto, unfolding(crate::specs::Reading::meaning))]
fn meaning_of<'a>(field: Field<'a>) -> Result<TagValue<'a>, TileFault>
    ensures { Reads tag_view result (meaning field.entry.number (value_view field.entry.value)) }
{
    match field.value {
        FieldValue::Bytes(part) => Ok(TagValue::Text(text_of(part)?)),
        FieldValue::Four(part) => Ok(TagValue::Float(four_of(part))),
        FieldValue::Eight(part) => Ok(TagValue::Double(eight_of(part))),
        FieldValue::Varint(n) => match field.number {
            INT_VALUE => Ok(plain(n)),
            UINT_VALUE => Ok(TagValue::Natural(n)),
            SINT_VALUE => Ok(signed(n)),
            _ => Ok(TagValue::Truth(n != 0)),
        },
    }
}

/// The value that a message of one kind of field says.
#[tactic(auto, unfolding(crate::specs::Reading::tag_value_at))]
pub(crate) fn tag_value_of<'a>(bytes: &'a [u8]) -> Result<TagValue<'a>, TileFault>
    ensures { Reads tag_view result (tag_value_at bytes.entry.now) }
{
    match last_value(bytes)? {
        Some(field) => meaning_of(field),
        None => Err(TileFault::Value),
    }
}
