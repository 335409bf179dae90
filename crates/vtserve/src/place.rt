//! The place of an open file in the file system, and what may become of it there.

use std::fs::{self, Metadata};
use std::io::ErrorKind;
use std::os::unix::fs::MetadataExt;

/// Which file it is: its device, and its number there.
#[derive(Clone, Copy, PartialEq, Eq)]
pub(crate) struct Identity {
    device: u64,
    number: u64,
}

/// The file that metadata are of.
pub(crate) fn identity_of(metadata: &Metadata) -> Identity {
    Identity {
        device: metadata.dev(),
        number: metadata.ino(),
    }
}

/// The path at which a file was opened.
#[derive(Clone, Copy)]
pub(crate) struct OpenPath<'a> {
    pub(crate) rt: &'a HostRuntime,
    pub(crate) path: &'a str,
    /// The open file.
    pub(crate) identity: Identity,
    /// How many bytes it had when it was opened.
    pub(crate) bytes: u64,
}

impl OpenPath<'_> {
    /// What became of the file, as far as can be seen: what is written to it now is lost for whoever opens its path again.
    pub(crate) fn loss(&self) -> Option<&'static str> {
        let metadata = match fs::metadata(self.rt, self.path) {
            Ok(metadata) => metadata,
            Err(error) if error.kind() == ErrorKind::NotFound => {
                return Some("the disk file was removed");
            }
            // A file system that doesn't answer says nothing of the file.
            Err(_) => return None,
        };
        if identity_of(&metadata) != self.identity {
            Some("the disk file was replaced")
        } else if metadata.len() < self.bytes {
            Some("the disk file was cut")
        } else {
            None
        }
    }
}
