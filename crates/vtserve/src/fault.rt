//! Why a command fails.

use generations::{MAX_SECTORS, MIN_SECTORS, StoreFault, What};
use http_serve::ServeFault;
use map_server::FileFault;
use std::cell::Cell;
use std::fmt;
use std::io::{self, ErrorKind};

/// What is known of a cause: what the system said, or our own words where it says too little.
pub(crate) type Cause = Option<io::Error>;

/// The faults of commands.
#[derive(Clone, Copy)]
pub(crate) enum CommandFault {
    /// The file isn't a regular file, can't be opened, locked or created, its folder can't be synced, or another process has locked it.
    File(Cause),
    /// The file that a command writes isn't a regular one, can't be written, synced or renamed, or is the disk.
    Output(Cause),
    /// FILE.part, which a command writes before it is FILE, is in the way or can't be made.
    Part(Cause),
    /// No archive was published.
    NoArchive,
    /// Publications passed by each copy that was begun.
    Busy,
    /// A disk is to have fewer sectors than the least.
    FewSectors,
    /// A disk is to have more sectors than the most.
    ManySectors,
    /// The disk isn't ready for a service, or can't be read.
    Store(StoreFault),
    /// A call of the disk's file failed.
    Device(Cause),
    /// What ended a connection.
    Connection(ServeFault),
    /// The port can't be listened on, or a connection can't be accepted.
    Listen { port: u16, cause: Cause },
    /// Standard output can't be written.
    Write(Cause),
    /// What standard error tells already.
    Told,
}

impl CommandFault {
    /// Why a file can't be read.
    pub(crate) fn of_file(error: io::Error) -> CommandFault {
        match error.kind() {
            ErrorKind::OutOfMemory => CommandFault::Store(StoreFault::Memory),
            _ => CommandFault::File(Some(error)),
        }
    }

    /// Why no disk was made.
    pub(crate) fn of_format(fault: FileFault) -> CommandFault {
        match fault {
            FileFault::File(error) => CommandFault::File(Some(error)),
            FileFault::Store(fault) => CommandFault::of_new_disk(fault),
        }
    }

    /// Why a new disk doesn't hold the empty map.
    pub(crate) fn of_new_disk(fault: StoreFault) -> CommandFault {
        match fault {
            StoreFault::TooSmall => CommandFault::FewSectors,
            StoreFault::Damaged(What::Size) => CommandFault::ManySectors,
            _ => CommandFault::Store(fault),
        }
    }

    /// Its name, as standard error shows it.
    pub(crate) fn name(&self) -> &'static str {
        match self {
            CommandFault::File(_) | CommandFault::Output(_) | CommandFault::Part(_) => "File",
            CommandFault::NoArchive => "NoArchive",
            CommandFault::Busy => "Busy",
            CommandFault::Store(StoreFault::NotFormatted) => "NotFormatted",
            CommandFault::FewSectors | CommandFault::Store(StoreFault::TooSmall) => "TooSmall",
            CommandFault::ManySectors | CommandFault::Store(StoreFault::Damaged(_)) => "Damaged",
            CommandFault::Store(StoreFault::Memory)
            | CommandFault::Connection(ServeFault::Memory) => "Memory",
            CommandFault::Store(StoreFault::Device)
            | CommandFault::Connection(ServeFault::Content { .. })
            | CommandFault::Device(_)
            | CommandFault::Told => "Device",
            CommandFault::Connection(ServeFault::Read { .. }) => "Read",
            CommandFault::Connection(ServeFault::Write { .. }) | CommandFault::Write(_) => "Write",
            CommandFault::Listen { .. } => "Listen",
        }
    }

    /// What is known of its cause.
    fn cause(&self) -> Cause {
        match self {
            CommandFault::File(cause)
            | CommandFault::Output(cause)
            | CommandFault::Part(cause)
            | CommandFault::Device(cause)
            | CommandFault::Listen { cause, .. }
            | CommandFault::Write(cause) => *cause,
            _ => None,
        }
    }
}

/// What a command over a disk came to, of whose file the last error was noted here.
pub(crate) fn with_cause(
    outcome: Result<(), CommandFault>,
    noted: &Cell<Cause>,
) -> Result<(), CommandFault> {
    match outcome {
        Err(CommandFault::Store(StoreFault::Device)) => Err(CommandFault::Device(noted.get())),
        _ => outcome,
    }
}

/// The paths of a command. One that it doesn't have is empty.
#[derive(Clone, Copy)]
pub(crate) struct Paths<'a> {
    /// That of the disk or the archive that it is over.
    pub(crate) path: &'a str,
    /// That of the file that it writes.
    pub(crate) goal: &'a str,
}

/// A fault of a command over these paths, with what it is about, and its cause where that is known.
#[derive(Clone, Copy)]
pub(crate) struct Report<'a> {
    pub(crate) fault: CommandFault,
    pub(crate) paths: Paths<'a>,
}

impl fmt::Display for Report<'_> {
    fn fmt<W: fmt::Write>(&self, f: &mut fmt::Formatter<W>) -> fmt::Result {
        let name = self.fault.name();
        let path = match self.fault {
            CommandFault::Output(_) | CommandFault::Part(_) => self.paths.goal,
            _ => self.paths.path,
        };
        let written = match self.fault {
            CommandFault::Listen { port, .. } => write!(f, "{name}: 127.0.0.1:{port}"),
            CommandFault::Part(_) => write!(f, "{name}: {path}.part"),
            // `demo` has no path.
            _ if path.is_empty() => f.write_str(name),
            _ => write!(f, "{name}: {path}"),
        };
        written?;
        match self.fault {
            CommandFault::FewSectors | CommandFault::ManySectors => {
                write!(f, ": N is from {MIN_SECTORS} to {MAX_SECTORS}")
            }
            CommandFault::Store(StoreFault::Damaged(what)) => write!(f, ": {what}"),
            _ => match self.fault.cause() {
                Some(cause) => write!(f, ": {cause}"),
                None => Ok(()),
            },
        }
    }
}
