//! What the fields of one number say, one item after the other.

ghost use Rattle.std.specs.Prelude.{◌≡◌, ℕ, ◌+◌, ◌<◌, ◌≤◌, length, List, Option, Ok, IfSome, IfOk, IfErr, OnOk, IsTrue, vec_len, vec_capacity};
ghost use Rattle.reader.specs.Reading.{Reads, Finds, Gives};
ghost use Rattle.std.specs.Option.{option_map};
ghost use Rattle.pb_wire.specs.Items.{item_view};
ghost use Rattle.mvt_layer.specs.Tile.{bytes_of};
ghost use Rattle.mvt_layer.specs.Reading.{after, number_after, bytes_after, parts_after, numbers_after, number_more, packed_in};
ghost use Rattle.mvt_layer.specs.Reading.{parts_in, number_at, holds_numbers, onward};

use crate::fault::TileFault;
use pb_wire::{Field, FieldValue, Fields, WireFault, get_varint};
use std::alloc::Global;

/// A field of a message, or its fault.
pub(crate) type FieldItem<'a> = Result<Field<'a>, WireFault>;

/// The last number of a field, after one item more.
fn number_behind(
    number: u32,
    last: Option<u64>,
    item: FieldItem<'_>,
) -> Result<Option<u64>, TileFault>
    ensures { Reads (λ n. n) result (after number number_after last (item_view item.entry)) }
{
    match item {
        Err(_) => Err(TileFault::Wire),
        Ok(field) if field.number != number => Ok(last),
        Ok(field) => match field.value {
            FieldValue::Varint(n) => Ok(Some(n)),
            _ => Err(TileFault::Kind),
        },
    }
}

/// The last number of a field, after one item more.
pub(crate) fn number_then(
    number: u32,
    before: Result<Option<u64>, TileFault>,
    item: FieldItem<'_>,
) -> Result<Option<u64>, TileFault>
    ensures { Gives TileFault.Memory (λ n. n) result (onward (λ n. n) before (λ n. after number number_after n (item_view item.entry))) }
{
    number_behind(number, before?, item)
}

/// The last bytes of a field, after one item more.
fn bytes_behind<'a>(
    number: u32,
    last: Option<&'a [u8]>,
    item: FieldItem<'a>,
) -> Result<Option<&'a [u8]>, TileFault>
    ensures { Reads (option_map (λ b. b.now)) result (after number bytes_after (option_map (λ b. b.now) last.entry) (item_view item.entry)) }
{
    match item {
        Err(_) => Err(TileFault::Wire),
        Ok(field) if field.number != number => Ok(last),
        Ok(field) => match field.value {
            FieldValue::Bytes(part) => Ok(Some(part)),
            _ => Err(TileFault::Kind),
        },
    }
}

/// The last bytes of a field, after one item more.
pub(crate) fn bytes_then<'a>(
    number: u32,
    before: Result<Option<&'a [u8]>, TileFault>,
    item: FieldItem<'a>,
) -> Result<Option<&'a [u8]>, TileFault>
    ensures { Gives TileFault.Memory (option_map (λ b. b.now)) result
        (onward (option_map (λ b. b.now)) before.entry (λ last. after number bytes_after last (item_view item.entry))) }
{
    bytes_behind(number, before?, item)
}

/// One item more of the parts of a field.
fn add_part<'a>(
    number: u32,
    parts: &mut Vec<&'a [u8]>,
    item: FieldItem<'a>,
) -> Result<(), TileFault>
    ensures { Finds TileFault.Memory (λ _. bytes_of parts.new.items) result (after number parts_after (bytes_of parts.old.items) (item_view item.entry)) }
{
    match item {
        Err(_) => Err(TileFault::Wire),
        Ok(field) if field.number != number => Ok(()),
        Ok(field) => match field.value {
            FieldValue::Bytes(part) => {
                parts.push(part)?;
                Ok(())
            }
            _ => Err(TileFault::Kind),
        },
    }
}

/// The parts of a field, after one item more.
fn parts_behind<'a>(
    number: u32,
    before: Vec<&'a [u8]>,
    item: FieldItem<'a>,
) -> Result<Vec<&'a [u8]>, TileFault>
    ensures { Finds TileFault.Memory (λ v. bytes_of v.items) result (after number parts_after (bytes_of before.entry.items) (item_view item.entry)) }
{
    let mut parts = before;
    add_part(number, &mut parts, item)?;
    Ok(parts)
}

/// The parts of a field that may come many times, after one item more, where there was no fault before.
pub(crate) fn parts_then<'a>(
    number: u32,
    before: Result<(), TileFault>,
    parts: &mut Vec<&'a [u8]>,
    item: FieldItem<'a>,
) -> Result<(), TileFault>
    ensures { Gives TileFault.Memory (λ _. bytes_of parts.new.items) result
        (onward (λ _. bytes_of parts.old.items) before (λ parts. after number parts_after parts (item_view item.entry))) }
{
    before?;
    add_part(number, parts, item)
}

/// The parts of a field that may come many times.
pub(crate) fn parts<'a>(
    alloc: Global,
    bytes: &'a [u8],
    number: u32,
) -> Result<Vec<&'a [u8]>, TileFault>
    ensures { Gives TileFault.Memory (λ v. bytes_of v.items) result (parts_in number bytes.entry.now) }
{
    let mut all = Vec::new(alloc);
    for item in Fields::new(bytes) {
        all = parts_behind(number, all, item)?;
    }
    Ok(all)
}

/// One number of 32 bits more.
fn add_number(numbers: &mut Vec<u32>, n: u64) -> Result<(), TileFault>
    ensures { Finds TileFault.Memory (λ _. numbers.new.items) result (number_more numbers.old.items n) }
{
    if n > 4_294_967_295 {
        return Err(TileFault::Range);
    }
    numbers.push(n as u32)?;
    Ok(())
}

/// One number of 32 bits more, for which there is room.
fn add_reserved(numbers: &mut Vec<u32>, n: u64) -> Result<(), TileFault>
    requires { vec_len numbers.old < vec_capacity numbers.old }
    ensures exact { Reads (λ _. numbers.new.items) result (number_more numbers.old.items n) }
    ensures len { OnOk result (vec_len numbers.new ≡ vec_len numbers.old + 1) }
    ensures capacity { vec_capacity numbers.new ≡ vec_capacity numbers.old }
{
    if n > 4_294_967_295 {
        return Err(TileFault::Range);
    }
    numbers.push_reserved(n as u32);
    Ok(())
}

/// The first number, if it takes two bytes.
fn two_bytes(bytes: &[u8]) -> Option<u64>
    ensures { IfSome result (λ n. (2 ≤ length bytes.now) × (number_at bytes.now ≡ Ok (n, 2))) }
{
    if bytes.len() < 2 {
        return None;
    }
    let low = bytes[0];
    let high = bytes[1];
    if low < 128 {
        return None;
    }
    if high > 127 {
        return None;
    }
    Some((low % 128) as u64 + 128 * high as u64)
}

/// The first of packed numbers, and its length in bytes. Most numbers take one byte or two.
fn packed_number(bytes: &[u8]) -> Result<(u64, usize), TileFault>
    ensures within { IfOk result (λ r. (0 < r.1) × (r.1 ≤ length bytes.now)) }
    ensures exact { Reads (λ r. r) result (number_at bytes.now) }
{
    if let Some(n) = two_bytes(bytes) {
        return Ok((n, 2));
    }
    match get_varint(bytes) {
        Ok(read) => Ok(read),
        Err(_) => Err(TileFault::Wire),
    }
}

/// The packed numbers of `bytes`, appended to those before. Memory is reserved for as many numbers as there are bytes.
fn add_packed(numbers: &mut Vec<u32>, bytes: &[u8]) -> Result<(), TileFault>
    ensures { Gives TileFault.Memory (λ _. numbers.new.items) result (packed_in (length bytes.now) numbers.old.items bytes.now) }
{
    numbers.reserve(bytes.len())?;
    let mut rest = bytes;
    while rest.len() > 0 {
        let (n, len) = packed_number(rest)?;
        add_reserved(numbers, n)?;
        rest = &rest[len..];
    }
    Ok(())
}

/// The numbers of a field, packed or not, with those of one item more.
fn add_numbers(number: u32, numbers: &mut Vec<u32>, item: FieldItem<'_>) -> Result<(), TileFault>
    ensures exact { Gives TileFault.Memory (λ _. numbers.new.items) result (after number numbers_after numbers.old.items (item_view item.entry)) }
    // An allocation fails only if the item may hold numbers.
    ensures memory { IfErr result (λ d. d ≡ TileFault.Memory → IsTrue (holds_numbers (item_view item.entry))) }
{
    match item {
        Err(_) => Err(TileFault::Wire),
        Ok(field) if field.number != number => Ok(()),
        Ok(field) => match field.value {
            FieldValue::Varint(n) => add_number(numbers, n),
            FieldValue::Bytes(part) => add_packed(numbers, part),
            _ => Err(TileFault::Kind),
        },
    }
}

/// The same after what was said before, which may be a fault.
pub(crate) fn numbers_then(
    number: u32,
    before: Result<(), TileFault>,
    numbers: &mut Vec<u32>,
    item: FieldItem<'_>,
) -> Result<(), TileFault>
    ensures { Gives TileFault.Memory (λ _. numbers.new.items) result
        (onward (λ _. numbers.old.items) before (λ ns. after number numbers_after ns (item_view item.entry))) }
{
    before?;
    add_numbers(number, numbers, item)
}
