//! Writes of all bytes or a prefix.
ghost use Rattle.std.specs.Prelude.{◌≡◌, [], OnOk};
ghost use Rattle.http_serve.specs.Sent.{Sends};

use crate::Connection;
use std::io::Write;

/// A write failed or took 0 bytes.
#[derive(Clone, Copy)]
pub(crate) struct WriteFault;

/// Writes all the bytes, or a proper prefix if a write fails or takes 0 bytes.
pub(crate) fn send_all<W: Write>(writer: &mut W, bytes: &[u8]) -> Result<(), WriteFault>
    ensures { Sends result (W.contents writer.old) (W.contents writer.new) bytes.now }
{
    let mut at = 0;
    while at < bytes.len() {
        match writer.write(&bytes[at..]) {
            Ok(0) | Err(_) => return Err(WriteFault),
            Ok(count) => at += count,
        }
    }
    Ok(())
}

/// Writes what waits to be sent on a connection, or a proper prefix if a write fails or takes 0 bytes.
pub(crate) fn send_output<W: Write>(
    writer: &mut W,
    connection: &mut Connection,
) -> Result<(), WriteFault>
    ensures sent { Sends result (W.contents writer.old) (W.contents writer.new) connection.old.output }
    ensures all { OnOk result (connection.new.output ≡ []) }
    ensures input { connection.new.input ≡ connection.old.input }
    ensures reserved { connection.new.reserved ≡ connection.old.reserved }
{
    'pieces: loop {
        if !connection.has_output() {
            return Ok(());
        }
        match writer.write(connection.piece()) {
            Ok(count) => {
                if count == 0 {
                    return Err(WriteFault);
                }
                connection.took(count);
            }
            Err(_) => return Err(WriteFault),
        }
    }
}
