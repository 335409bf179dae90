//! Fields of messages.

ghost use Rattle.std.specs.Prelude.{◌≡◌, ◌*◌, ◌+◌, ◌<◌, ◌^◌, ◌++◌, OnOk};
ghost use Rattle.std.specs.List.{flat_map};
ghost use Rattle.pb_wire.specs.Varint.{varint};
ghost use Rattle.mvt_write.specs.Parts.{field_head};
ghost use Rattle.mvt_write.specs.Written.{number_field, bytes_field};

use mvt_layer::field_numbers::{LAYER_EXTENT, LAYER_VERSION};
use mvt_layer::{CURRENT_VERSION, DEFAULT_EXTENT};
use pb_wire::{WIRE_LEN, WIRE_VARINT, put_varint};
use std::alloc::AllocError;

/// Appends two numbers of one byte each.
fn put_small(out: &mut Vec<u8>, a: u8, b: u8) -> Result<(), AllocError>
    requires first { a < 128 }
    requires second { b < 128 }
    ensures { OnOk result (out.new.items ≡ out.old.items ++ (varint a ++ varint b)) }
{
    out.extend_from_slice(&[a, b])
}

/// Appends two numbers.
pub(crate) fn put_pair(out: &mut Vec<u8>, a: u64, b: u64) -> Result<(), AllocError>
    ensures { OnOk result (out.new.items ≡ out.old.items ++ (varint a ++ varint b)) }
{
    // Most numbers take one byte.
    if a < 128 && b < 128 {
        return put_small(out, a as u8, b as u8);
    }
    put_varint(out, a)?;
    put_varint(out, b)
}

/// Appends a field that is a number.
pub(crate) fn put_number(out: &mut Vec<u8>, number: u32, n: u64) -> Result<(), AllocError>
    requires { number < 2 ^ 29 }
    ensures { OnOk result (out.new.items ≡ out.old.items ++ number_field number n) }
{
    put_pair(out, 8 * u64::from(number) + WIRE_VARINT, n)
}

/// Appends what a field of this many bytes has before them.
pub(crate) fn put_head(out: &mut Vec<u8>, number: u32, len: usize) -> Result<(), AllocError>
    requires { number < 2 ^ 29 }
    ensures { OnOk result (out.new.items ≡ out.old.items ++ field_head number len) }
{
    put_pair(out, 8 * u64::from(number) + WIRE_LEN, len as u64)
}

/// Appends a field that is bytes.
pub(crate) fn put_bytes(out: &mut Vec<u8>, number: u32, bytes: &[u8]) -> Result<(), AllocError>
    requires { number < 2 ^ 29 }
    ensures { OnOk result (out.new.items ≡ out.old.items ++ bytes_field number bytes.now) }
{
    put_head(out, number, bytes.len())?;
    out.extend_from_slice(bytes)
}

/// Appends a field that is the bytes of four parts.
pub(crate) fn put_joined(
    out: &mut Vec<u8>,
    number: u32,
    a: &[u8],
    b: &[u8],
    c: &[u8],
    d: &[u8],
) -> Result<(), AllocError>
    requires { number < 2 ^ 29 }
    ensures { OnOk result (out.new.items ≡ out.old.items ++ bytes_field number (a.now ++ (b.now ++ (c.now ++ d.now)))) }
{
    // Were the sum above 64 bits, no memory would hold the parts, and one of the steps below would fail.
    let len = (a.len().wrapping_add(b.len())).wrapping_add(c.len().wrapping_add(d.len()));
    put_head(out, number, len)?;
    out.extend_from_slice(a)?;
    out.extend_from_slice(b)?;
    out.extend_from_slice(c)?;
    out.extend_from_slice(d)
}

/// Replaces `packed` with the numbers, one after the other.
pub(crate) fn pack_numbers(packed: &mut Vec<u8>, numbers: &[u32]) -> Result<(), AllocError>
    ensures { OnOk result (packed.new.items ≡ flat_map varint numbers.now) }
{
    packed.clear();
    for n in numbers {
        put_varint(packed, u64::from(*n))?;
    }
    Ok(())
}

/// Appends the fields after the pools.
pub(crate) fn put_end(out: &mut Vec<u8>) -> Result<(), AllocError>
    ensures { OnOk result
        (out.new.items ≡ out.old.items ++ (number_field LAYER_EXTENT DEFAULT_EXTENT ++ number_field LAYER_VERSION CURRENT_VERSION)) }
{
    put_number(out, LAYER_EXTENT, u64::from(DEFAULT_EXTENT))?;
    put_number(out, LAYER_VERSION, u64::from(CURRENT_VERSION))
}
