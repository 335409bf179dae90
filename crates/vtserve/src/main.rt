//! A vector tile server whose map is edited over HTTP.
#![tactic(auto)]

mod archives;
mod boxed;
mod commands;
mod confirming;
mod copying;
mod descriptors;
mod exporting;
mod fault;
mod files;
mod listening;
mod looks;
mod noted;
mod place;
mod printing;
mod regular;
mod serving;
mod stack;
mod tasks;
mod watching;

use archives::{show_file, verify_file};
use clap::ArgMatches;
use clap::error::ErrorKind::OutOfMemory;
use commands::command_line;
use fault::{CommandFault, Paths, Report};
use file_disk::Unknown;
use files::{format_file, serve_file};
use generations::StoreFault;
use listening::listening_of;
use looks::Looks;
use map_replies::Settings;
use map_server::fresh_service;
use serving::{Peers, run_number, serve};
use std::fmt::Display;
use std::io;
use std::process::ExitCode;
use tasks::{Task, copy_file, done_with_file};
use tile_routes::Access;

/// Prints why a command failed, as far as standard error can be written. The status of the command.
fn refused(rt: &HostRuntime, why: impl Display + Drop) -> ExitCode {
    let _ = eprintln!(rt; "vtserve: {why}");
    ExitCode::FAILURE
}

/// How much is told of a fault.
#[derive(Clone, Copy)]
pub(crate) enum Told {
    /// Its name.
    Name,
    /// Its name, the path, and its cause where that is known.
    Cause,
}

/// Prints the name of a fault of the file at a path.
fn refused_file(rt: &HostRuntime, name: impl Display + Drop, path: &str, told: Told) -> ExitCode {
    match told {
        Told::Name => refused(rt, name),
        Told::Cause => refused(rt, format_args!("{name}: {path}")),
    }
}

/// The status of a command over these paths, and its fault on standard error.
fn ended(
    rt: &HostRuntime,
    outcome: Result<(), CommandFault>,
    paths: Paths<'_>,
    told: Told,
) -> ExitCode {
    match outcome {
        Ok(()) => ExitCode::SUCCESS,
        Err(CommandFault::Told) => ExitCode::FAILURE,
        Err(fault) => match told {
            Told::Name => refused(rt, fault.name()),
            Told::Cause => refused(rt, Report { fault, paths }),
        },
    }
}

/// Serves one connection on standard input and output, over the empty map on a disk in memory.
fn demo(rt: &HostRuntime, sectors: u64, settings: Settings) -> Result<(), CommandFault> {
    match fresh_service(rt.alloc(), sectors, settings) {
        Ok(map) => serve(rt, map, Peers::Streams, &Looks::new(None)),
        Err(fault) => Err(CommandFault::of_new_disk(fault)),
    }
}

/// Does what the command line asks.
fn run(rt: &HostRuntime, matches: &ArgMatches<'_>) -> ExitCode {
    let Some((name, words)) = matches.subcommand() else {
        return ExitCode::from(2);
    };
    let paths = Paths {
        path: words.get_str("FILE").unwrap_or(""),
        goal: words.get_str("OUTPUT").unwrap_or(""),
    };
    let sectors = words.get_one::<u64>("N").unwrap_or(0);
    let access = if words.get_flag("ADMIN") {
        Access::Admin
    } else {
        Access::Map
    };
    let tags = if words.get_flag("ETAGS") {
        run_number(rt)
    } else {
        None
    };
    let settings = Settings { access, tags };
    let told = if words.get_flag("VERBOSE") {
        Told::Cause
    } else {
        Told::Name
    };
    let outcome = match name {
        "copy" => copy_file(rt, paths, Unknown),
        "demo" => demo(rt, sectors, settings),
        "export" => done_with_file(rt, paths, Task::Export, Unknown),
        "format" => format_file(rt, paths.path, sectors),
        "pipe" => serve_file(rt, paths.path, settings, Peers::Streams, Unknown),
        "serve" => match listening_of(words) {
            Some(asked) => serve_file(rt, paths.path, settings, Peers::Port(asked), Unknown),
            None => return ExitCode::from(2),
        },
        "show" => return show_file(rt, paths.path, told),
        "upgrade" => done_with_file(rt, paths, Task::Upgrade, Unknown),
        "verify" => return verify_file(rt, paths.path, told, Unknown),
        _ => return ExitCode::from(2),
    };
    ended(rt, outcome, paths, told)
}

/// The words of the command line.
fn command_words(rt: &HostRuntime) -> io::Result<Vec<String>> {
    Ok(std::env::args(rt)?.collect(rt.alloc())?)
}

/// Prints what the parser of the command line says in place of a command: help, the version, or an error.
fn unread(rt: &HostRuntime, error: &clap::Error) -> ExitCode {
    if error.kind() == OutOfMemory {
        return refused(rt, CommandFault::Store(StoreFault::Memory).name());
    }
    match error.print(rt) {
        Ok(()) => ExitCode::from(error.exit_code() as u8),
        Err(error) => {
            let _ = eprintln!(rt; "Error: {error}");
            ExitCode::FAILURE
        }
    }
}

fn main(rt: HostRuntime) -> ExitCode {
    let words = match command_words(&rt) {
        Ok(words) => words,
        // A word that isn't UTF-8 is taken for a path that leads to no file.
        Err(error) => return refused(&rt, CommandFault::of_file(error).name()),
    };
    let Ok(command) = command_line(rt.alloc()) else {
        return refused(&rt, CommandFault::Store(StoreFault::Memory).name());
    };
    match command.try_get_matches_from(words.as_slice()) {
        Ok(matches) => run(&rt, &matches),
        Err(error) => unread(&rt, &error),
    }
}
