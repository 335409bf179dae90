//! What a command prints.

use crate::fault::CommandFault;
use std::io::Write;

/// Prints a line of a number between two texts, at once.
pub(crate) fn print_number(
    rt: &HostRuntime,
    before: &str,
    number: u64,
    after: &str,
) -> Result<(), CommandFault> {
    let printed = match println!(rt; "{before}{number}{after}") {
        Ok(()) => rt.stdout().flush(),
        Err(error) => Err(error),
    };
    match printed {
        Ok(()) => Ok(()),
        Err(error) => Err(CommandFault::Write(Some(error))),
    }
}
