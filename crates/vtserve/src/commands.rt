//! The command line: the commands with their arguments and their help.

use clap::{Arg, ArgAction, Command};
use std::alloc::{AllocError, Global};

/// What an argument takes.
#[derive(Clone, Copy)]
enum Takes {
    /// A path.
    Path,
    /// A number of sectors.
    Sectors,
    /// A port.
    Port,
    /// A number of connections.
    Connections,
    /// Nothing: it is given or not.
    Nothing,
    /// The same, and it is given only beside the argument of this id.
    NothingBeside(&'static str),
}

/// How an argument is given.
#[derive(Clone, Copy)]
enum Given {
    /// By its position.
    Place,
    /// As an option of this name.
    Long(&'static str),
    /// As an option of this letter.
    Short(char),
}

/// An argument of a command.
#[derive(Clone, Copy)]
struct Word {
    /// By what it is looked up. DISK has that of an archive's path, so that one look-up reads both.
    id: &'static str,
    /// Its name in usages.
    name: &'static str,
    given: Given,
    takes: Takes,
    help: &'static str,
}

/// The path of a disk file.
const DISK: Word = Word {
    id: "FILE",
    name: "DISK",
    given: Given::Place,
    takes: Takes::Path,
    help: "A disk file",
};

/// The path of an archive that is read.
const ARCHIVE: Word = Word {
    id: "FILE",
    name: "FILE",
    given: Given::Place,
    takes: Takes::Path,
    help: "A tile archive (PMTiles 3)",
};

/// The path of an archive that is written.
const OUTPUT: Word = Word {
    id: "OUTPUT",
    name: "FILE",
    given: Given::Place,
    takes: Takes::Path,
    help: "The PMTiles file to write; an existing regular file is replaced",
};

/// The path of a copy of a disk.
const COPY: Word = Word {
    id: "OUTPUT",
    name: "FILE",
    given: Given::Place,
    takes: Takes::Path,
    help: "The disk file to create",
};

/// The number of sectors, by position.
const SECTORS: Word = Word {
    id: "N",
    name: "N",
    given: Given::Place,
    takes: Takes::Sectors,
    help: "Sectors of 512 bytes, from 64 to 16777216",
};

/// The number of sectors, as an option.
const NAMED_SECTORS: Word = Word {
    given: Given::Long("sectors"),
    ..SECTORS
};

/// The port.
const PORT: Word = Word {
    id: "P",
    name: "P",
    given: Given::Long("port"),
    takes: Takes::Port,
    help: "A port of 127.0.0.1, from 1 to 65535",
};

/// The number of connections.
const CONNECTIONS: Word = Word {
    id: "K",
    name: "K",
    given: Given::Long("connections"),
    takes: Takes::Connections,
    help: "How many connections are served, from 1 to 4294967295",
};

/// Whether the paths under `/admin/` are served.
const ADMIN: Word = Word {
    id: "ADMIN",
    name: "ADMIN",
    given: Given::Long("admin"),
    takes: Takes::Nothing,
    help: "Serves the paths under /admin/ too: the status, the list of features, and checked edits",
};

/// Whether replies have entity tags, and conditions on tags count.
const ETAGS: Word = Word {
    id: "ETAGS",
    name: "ETAGS",
    given: Given::Long("etags"),
    takes: Takes::Nothing,
    help: "Gives tiles and the archive entity tags, and obeys conditions such as If-None-Match",
};

/// Whether the first failure of the disk ends the command.
const STOPS: Word = Word {
    id: "STOPS",
    name: "STOPS",
    given: Given::Long("stop-when-broken"),
    takes: Takes::Nothing,
    help: "Ends with status 1 once a write or sync of the disk failed, after the requests seen by then",
};

/// Whether an edit is acknowledged only once a standby has it.
const NEEDED: Word = Word {
    id: "NEEDED",
    name: "NEEDED",
    given: Given::Long("standby-needed"),
    takes: Takes::NothingBeside("ADMIN"),
    help: "Acknowledges an edit once a standby has it too, and without one refuses edits; needs --admin",
};

/// How much is told of an error.
const VERBOSE: Word = Word {
    id: "VERBOSE",
    name: "VERBOSE",
    given: Given::Short('v'),
    takes: Takes::Nothing,
    help: "Tells the path and the cause with an error",
};

/// A command: its name, its arguments and its help.
type Row = (&'static str, &'static [Word], &'static str);

static COMMANDS: [Row; 9] = [
    (
        "copy",
        &[DISK, COPY, VERBOSE],
        "Copies a disk file as of one moment, also while it is served; FILE must not exist",
    ),
    (
        "demo",
        &[SECTORS, ADMIN, ETAGS, VERBOSE],
        "Serves one connection on standard input and output over an empty map in memory",
    ),
    (
        "export",
        &[DISK, OUTPUT, VERBOSE],
        "Writes the last published archive of a disk file into a file",
    ),
    (
        "format",
        &[DISK, NAMED_SECTORS, VERBOSE],
        "Creates a disk file with an empty map; DISK must not exist",
    ),
    (
        "pipe",
        &[DISK, ADMIN, ETAGS, VERBOSE],
        "Serves one connection on standard input and output over the map of a disk file",
    ),
    (
        "serve",
        &[
            DISK,
            PORT,
            CONNECTIONS,
            ADMIN,
            ETAGS,
            STOPS,
            NEEDED,
            VERBOSE,
        ],
        "Serves the map of a disk file on a port of 127.0.0.1 to many clients by turns",
    ),
    (
        "show",
        &[ARCHIVE, VERBOSE],
        "Prints the header and the metadata of a tile archive",
    ),
    (
        "upgrade",
        &[DISK, VERBOSE],
        "Upgrades a disk file to version 2 of the format; make a copy of it first",
    ),
    (
        "verify",
        &[ARCHIVE, VERBOSE],
        "Checks a PMTiles archive: prints its counts or its first fault",
    ),
];

/// The argument in clap's terms.
fn arg_of<'a>(alloc: Global, word: Word) -> Result<Arg<'a>, AllocError> {
    let arg = Arg::new(alloc, word.id)
        .value_name(word.name)
        .help(word.help);
    let arg = match word.given {
        Given::Place => arg,
        Given::Long(name) => arg.long(name),
        Given::Short(letter) => arg.short(letter),
    };
    let arg = match word.takes {
        Takes::Path => arg,
        Takes::Sectors => arg.value_parser(clap::value_parser!(u64)),
        Takes::Port => arg.value_parser(clap::value_parser!(u16).range(1..)),
        Takes::Connections => arg.value_parser(clap::value_parser!(u32).range(1..)),
        Takes::Nothing => return Ok(arg.action(ArgAction::SetTrue)),
        Takes::NothingBeside(id) => return arg.action(ArgAction::SetTrue).requires_arg(id),
    };
    Ok(arg.required(true).action(ArgAction::Set))
}

/// The command of a row in clap's terms.
fn command_of<'a>(alloc: Global, row: Row) -> Result<Command<'a>, AllocError> {
    let (name, words, about) = row;
    let mut command = Command::new(alloc, name).about(about);
    for word in words {
        command = command.arg(arg_of(alloc, *word)?)?;
    }
    Ok(command)
}

/// The command line of the program.
pub(crate) fn command_line<'a>(alloc: Global) -> Result<Command<'a>, AllocError> {
    let mut program = Command::new(alloc, "vtserve")
        .version("0.2.0")
        .about("A vector tile server whose map is edited over HTTP")
        .subcommand_required(true);
    for row in &COMMANDS {
        program = program.subcommand(command_of(alloc, *row)?)?;
    }
    Ok(program)
}
