//! Runs a script in parts, each over a state of its own: disks with their generations and journals, a map on a disk as a service, and
//! connections to such a map.
//!
//! A line `part NAME` begins the part `journal`, `service` or `connections`, whose commands follow, and prints nothing. Each other line prints
//! its answer. Empty lines and lines that begin with `#` are echoed. What is no command of its part, or doesn't fit, is printed after `?`.
//! The head of each part's crate lists its commands: `journal_runs`, `tile_service_runs`, `connection_runs`.
#![tactic(auto)]

use script_bytes::Answer;
use std::alloc::{AllocError, Global};
use std::{io, mem};

/// The part of the script whose commands follow, with its state. It ends by `end` alone.
enum Part {
    /// No part was begun, or one that isn't known.
    Unknown,
    Journal(journal_runs::Trial),
    Service(tile_service_runs::Trial),
    Connections(connection_runs::Trial),
}

impl Part {
    /// Lets its state go. Of a service its disk goes: how the other parts go is proved where services are.
    fn end(self) {
        match self {
            Part::Unknown => {}
            Part::Journal(trial) => drop(trial),
            Part::Service(trial) => trial.end(),
            Part::Connections(trial) => trial.end(),
        }
    }
}

/// The part of this name in its first state. `Unknown` if there is no such part.
fn part_of(alloc: Global, name: &str) -> Result<Part, AllocError> {
    match name {
        "journal" => Ok(Part::Journal(journal_runs::Trial::new(alloc)?)),
        "service" => Ok(Part::Service(tile_service_runs::Trial::new(alloc)?)),
        "connections" => Ok(Part::Connections(connection_runs::Trial::new(alloc)?)),
        _ => Ok(Part::Unknown),
    }
}

/// Begins the part of this name, and ends the one before.
fn begin(rt: &HostRuntime, part: &mut Part, name: &str) -> io::Result<()> {
    let next = part_of(rt.alloc(), name)?;
    let is_known = !matches!(&next, Part::Unknown);
    mem::replace(part, next).end();
    if is_known {
        return Ok(());
    }
    println!(rt; "no part {name}")
}

/// Answers a command of the part.
fn answer_to(alloc: Global, part: &mut Part, text: &str, answer: &mut Answer) {
    match part {
        Part::Unknown => answer.reject(),
        Part::Journal(trial) => journal_runs::answer_to(alloc, trial, text, answer),
        Part::Service(trial) => tile_service_runs::answer_to(alloc, trial, text, answer),
        Part::Connections(trial) => connection_runs::answer_to(alloc, trial, text, answer),
    }
}

fn print(rt: &HostRuntime, answer: &Answer, text: &str) -> io::Result<()> {
    match answer.told()? {
        Some(told) => println!(rt; "{told}"),
        None => println!(rt; "? {text}"),
    }
}

fn answer_command(rt: &HostRuntime, part: &mut Part, text: &str) -> io::Result<()> {
    let mut answer = Answer::new(rt.alloc());
    answer_to(rt.alloc(), part, text, &mut answer);
    print(rt, &answer, text)
}

fn answer_line(rt: &HostRuntime, part: &mut Part, text: &str) -> io::Result<()> {
    if text.is_empty() || text.starts_with('#') {
        return println!(rt; "{text}");
    }
    match text.strip_prefix("part ") {
        Some(name) => begin(rt, part, name),
        None => answer_command(rt, part, text),
    }
}

/// Answers each line. The part is borrowed, so that no way out of the loop drops a disk or a service.
fn answer_lines(rt: &HostRuntime, part: &mut Part) -> io::Result<()> {
    for line in rt.lines(rt.alloc()) {
        answer_line(rt, part, line?.as_str())?;
    }
    Ok(())
}

fn main(rt: HostRuntime) -> io::Result<()> {
    let mut part = Part::Unknown;
    let answered = answer_lines(&rt, &mut part);
    part.end();
    answered
}
