//! Decodes the numbers of a directory.

ghost use Rattle.std.specs.Prelude.{◌≡◌, ◌≢◌, ◌<◌, length, Err, IfOk, IfErr};
ghost use Rattle.reader.specs.Reading.{Gives, Reads};
ghost use Rattle.pm_directory.specs.Reading.{number_at, numbers_at};

use crate::fault::DirectoryFault;
use pb_wire::{FaultKind, get_varint};
use std::alloc::Global;

/// The first number, and the bytes after it.
#[tactic(auto, unfolding(crate::specs::Reading::number_at, crate::specs::Reading::number_of))]
pub(crate) fn number(bytes: &[u8]) -> Result<(u64, &[u8]), DirectoryFault>
    ensures exact { Reads (λ x. (x.0, x.1.now)) result (number_at bytes.now) }
    ensures memory { result ≢ Err DirectoryFault.Memory }
{
    match get_varint(bytes) {
        Ok((number, len)) => Ok((number, &bytes[len..])),
        Err(fault) => match fault.kind {
            FaultKind::Varint => Err(DirectoryFault::Varint),
            _ => Err(DirectoryFault::Cut),
        },
    }
}

/// The first `count` numbers, and the bytes after them.
pub(crate) fn numbers(
    alloc: Global,
    count: usize,
    bytes: &[u8],
) -> Result<(Vec<u64>, &[u8]), DirectoryFault>
    ensures count { IfOk result (λ x. length x.0.items ≡ count) }
    ensures exact { Gives DirectoryFault.Memory (λ x. (x.0.items, x.1.now)) result (numbers_at count bytes.now) }
    ensures memory { IfErr result (λ fault. fault ≡ DirectoryFault.Memory → 0 < count) }
{
    let mut numbers = Vec::with_capacity(alloc, count)?;
    let mut rest = bytes;
    for i in 0..count {
        let (number, after) = number(rest)?;
        numbers.push_reserved(number);
        rest = after;
    }
    Ok((numbers, rest))
}
