//! The messages of values.

ghost use Rattle.std.specs.Prelude.{◌≡◌, OnOk};
ghost use Rattle.mvt_layer.specs.Tile.{tag_view};
ghost use Rattle.mvt_write.specs.CanWrite.{CanWriteValue};
ghost use Rattle.mvt_write.specs.Written.{value_written};

use crate::field::{put_bytes, put_number};
use mvt_layer::TagValue;
use mvt_layer::field_numbers::{BOOL_VALUE, SINT_VALUE, STRING_VALUE, UINT_VALUE};
use pb_wire::zigzag;
use std::alloc::AllocError;

/// Replaces `message` with the message of a value (Mapbox Vector Tile 2.1, 4.4).
#[tactic(auto, unfolding(crate::specs::Written::value_written))]
pub(crate) fn write_value(message: &mut Vec<u8>, value: TagValue<'_>) -> Result<(), AllocError>
    requires { CanWriteValue (tag_view value) }
    ensures { OnOk result (message.new.items ≡ value_written (tag_view value.entry)) }
{
    message.clear();
    match value {
        TagValue::Text(text) => put_bytes(message, STRING_VALUE, text.as_bytes()),
        TagValue::Natural(n) => put_number(message, UINT_VALUE, n),
        TagValue::Negative(n) => put_number(message, SINT_VALUE, zigzag(n)),
        TagValue::Truth(truth) => put_number(message, BOOL_VALUE, u64::from(truth)),
        _ => unreachable!(),
    }
}
