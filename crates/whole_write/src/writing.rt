//! Writes bytes whole, or a proper prefix of them.

ghost use Rattle.std.specs.Prelude.{◌<◌, length, MatchResult};
ghost use Rattle.std.specs.Io.KnownBytes.{Keeps};
ghost use Rattle.whole_write.specs.Writes.{SoFar, WritesWhole};

use std::io::{self, ErrorKind, Write};

/// Calls the writer once and returns the bytes that are still to be written, all of them if the write was interrupted.
fn write_some<'a, W: Write>(into: &mut W, bytes: &'a [u8]) -> io::Result<&'a [u8]>
    requires { 0 < length bytes.now }
    ensures { MatchResult result (λ rest. SoFar (W.contents into.old) (W.contents into.new) bytes.now rest.now)
        (λ _. Keeps (W.contents into.old) (W.contents into.new)) }
{
    match into.write(bytes) {
        Ok(0) => Err(io::Error::from(ErrorKind::WriteZero)),
        Ok(count) => Ok(&bytes[count..]),
        Err(error) => {
            if error.kind() == ErrorKind::Interrupted {
                Ok(bytes)
            } else {
                Err(error)
            }
        }
    }
}

/// Writes all of the bytes. Short writes are continued and interrupted ones retried.
///
/// # Errors
///
/// The writer's fault, or `WriteZero` if a write took no byte. A proper prefix of the bytes was written then.
pub fn write_whole<W: Write>(into: &mut W, bytes: &[u8]) -> io::Result<()>
    ensures { WritesWhole (W.contents into.old) (W.contents into.new) result bytes.now }
{
    let mut rest = bytes;
    for _ in 0..u64::MAX {
        if rest.len() == 0 {
            return Ok(());
        }
        let left = write_some(into, rest)?;
        rest = left;
    }
    if rest.len() == 0 {
        Ok(())
    } else {
        Err(io::Error::from(ErrorKind::Interrupted))
    }
}
