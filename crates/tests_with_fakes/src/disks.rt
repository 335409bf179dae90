//! Disks in files, and disks whose calls fail, by worked examples.
mod calls;
mod copies;
mod fakes;
mod faulty;
mod paths;
mod runs;
mod steps;
mod system;

use std::io::{self, ErrorKind};

/// What a call of the system gives, or the kind of its error.
fn kind_of<T>(outcome: io::Result<T>) -> Result<T, ErrorKind> {
    match outcome {
        Ok(given) => Ok(given),
        Err(error) => Err(error.kind()),
    }
}
