//! Checks that metadata is a JSON object.

ghost use Rattle.std.specs.Prelude.{◌≡◌, ◌↔◌, ◌<◌, false, length, IfOk, OnErr, IsTrue};
ghost use Rattle.pm_metadata.specs.Archive.{IsMetadata};
ghost use Rattle.serde_json.specs.Errors.{IsMemory};

use serde_json::{Error, Value};
use std::alloc::{AllocError, Global};

/// The meaning of an error: the bytes aren't a JSON text, or memory ran out.
fn refused(error: &Error) -> Result<bool, AllocError>
    ensures memory { OnErr result (IsMemory error.now) }
    ensures other { IfOk result (λ is. (is ≡ false) × ¬ IsMemory error.now) }
{
    if error.is_memory() {
        Err(AllocError)
    } else {
        Ok(false)
    }
}

/// Whether the bytes are metadata of an archive: a JSON text of an object, in UTF-8 (PMTiles 3, 5).
///
/// # Errors
///
/// Memory ran out, which can't happen if there are no bytes.
pub fn is_metadata(alloc: Global, bytes: &[u8]) -> Result<bool, AllocError>
    ensures metadata { IfOk result (λ is. IsTrue is ↔ IsMetadata bytes.now) }
    ensures some { IfOk result (λ is. IsTrue is → 0 < length bytes.now) }
    ensures memory { OnErr result (0 < length bytes.now) }
{
    match Value::from_slice(alloc, bytes) {
        Ok(value) => Ok(value.is_object()),
        Err(error) => refused(&error),
    }
}
