//! The connections of a port.
ghost use Rattle.std.specs.Prelude.{◌≡◌, ◌≤◌, ℕ, List, [], Option, None, IfSome, OnOk};
ghost use Rattle.http_listen.specs.Connections.{AreOverKnown, Event, Serves, begun};
ghost use Rattle.map_replies.specs.Preparing.{TellsMeanwhile, TellsMeanwhileRead, TellsPreparedFor};
ghost use Rattle.map_replies.specs.Preparing.{inner_service, meanwhile, without_draft};
ghost use Rattle.tile_service.specs.Machine.{Happening};
ghost use Rattle.tile_service.specs.Runs.{TakesRun};

use crate::descriptors::max_connections;
use crate::fault::{Cause, CommandFault};
use crate::looks::Looks;
use crate::printing::print_number;
use crate::watching::Halting;
use clap::ArgMatches;
use generations::StoreFault;
use http_listen::{ListenFault, Log, SystemListener};
use libc::net::listen;
use map_replies::PreparingReplies;
use map_server::serve_map_on;
use sector_disk::Sectors;
use std::cell::Cell;
use std::io::{self, LineWriter, Write};
use std::net::{Ipv4Addr, SocketAddr, TcpListener};
use std::os::fd::AsRawFd;

/// How many connections the system keeps until they are accepted. If there are more, it drops packets of the handshake, and the peer
/// waits for a second or more until it sends them again.
const QUEUE: i32 = 4_096;

/// Where connections come from, and how many.
#[derive(Clone, Copy)]
pub(crate) struct Listening {
    /// A port of 127.0.0.1.
    pub(crate) port: u16,
    /// How many connections are served.
    pub(crate) connections: u32,
    /// Whether the first write or sync of the disk that fails ends it, after the current requests.
    pub(crate) stops: bool,
    /// Whether an edit is acknowledged only once a standby has it.
    pub(crate) needs_standby: bool,
}

/// What the words of the command ask for, unless a number is 0.
pub(crate) fn listening_of(words: &ArgMatches<'_>) -> Option<Listening>
    ensures { IfSome result (λ asked. (1 ≤ asked.port) × (1 ≤ asked.connections)) }
{
    let port = words.get_one::<u16>("P").unwrap_or(0);
    let connections = words.get_one::<u32>("K").unwrap_or(0);
    if port == 0 || connections == 0 {
        return None;
    }
    Some(Listening {
        port,
        connections,
        stops: words.get_flag("STOPS"),
        needs_standby: words.get_flag("NEEDED"),
    })
}

/// Listens on a port of 127.0.0.1.
fn listen_on(rt: &HostRuntime, port: u16) -> io::Result<SystemListener> {
    let listener = TcpListener::bind(rt, SocketAddr::from((Ipv4Addr::LOCALHOST, port)))?;
    // The kit's own is 128. If it can't be set, that remains.
    let _ = listen(listener.as_raw_fd(), QUEUE);
    SystemListener::new(rt, rt.alloc(), listener, max_connections())
}

/// Listens on a port, and says so.
pub(crate) fn listener_on(rt: &HostRuntime, port: u16) -> Result<SystemListener, CommandFault> {
    let listener = match listen_on(rt, port) {
        Ok(listener) => listener,
        Err(error) => {
            let cause = Some(error);
            return Err(CommandFault::Listen { port, cause });
        }
    };
    print_number(rt, "serving on 127.0.0.1:", u64::from(port), "")?;
    Ok(listener)
}

/// Serves the connections by turns, with this log. The disk file is watched meanwhile.
fn serve_log<D: Sectors + Drop, W: Write>(
    rt: &HostRuntime,
    asked: Listening,
    service: &mut PreparingReplies<D>,
    looks: &Looks<'_>,
    log: &mut W,
) -> Result<(), CommandFault>
    ensures all { OnOk result ((served : List Event) × (begun served ≡ asked.connections) × AreOverKnown served × (run : List Happening)
        × (fixed : Option ℕ) × Serves (TellsMeanwhile D.sectors D.honest D.history D.faults)
        (TellsMeanwhileRead D.sectors D.honest D.history D.faults) (TellsPreparedFor D.sectors D.honest D.history D.faults)
        (meanwhile (without_draft service.old) [] None) served (meanwhile service.new run fixed)
        × TakesRun D.sectors D.honest D.history (inner_service service.old) run (inner_service service.new)) }
{
    let cause: Cell<Cause> = Cell::new(None);
    let mut listener = Halting {
        listener: listener_on(rt, asked.port)?,
        halts: asked.stops,
        looks,
        cause: &cause,
    };
    looks.begin();
    let connections = u64::from(asked.connections);
    let mut lines = Log::new(log);
    let outcome = serve_map_on(
        rt,
        rt.alloc(),
        &mut listener,
        connections,
        service,
        &mut lines,
    );
    drop(listener);
    match outcome {
        _ if asked.stops && looks.has_failed() => Err(CommandFault::Told),
        Ok(()) => Ok(()),
        Err(ListenFault::Accept) => Err(CommandFault::Listen {
            port: asked.port,
            cause: cause.get(),
        }),
    }
}

/// Serves the connections by turns, with their log on standard error, of which each line is one call of the system. The disk file is
/// watched meanwhile.
pub(crate) fn serve_connections<D: Sectors + Drop>(
    rt: &HostRuntime,
    asked: Listening,
    service: &mut PreparingReplies<D>,
    looks: &Looks<'_>,
) -> Result<(), CommandFault>
    ensures all { OnOk result ((served : List Event) × (begun served ≡ asked.connections) × AreOverKnown served × (run : List Happening)
        × (fixed : Option ℕ) × Serves (TellsMeanwhile D.sectors D.honest D.history D.faults)
        (TellsMeanwhileRead D.sectors D.honest D.history D.faults) (TellsPreparedFor D.sectors D.honest D.history D.faults)
        (meanwhile (without_draft service.old) [] None) served (meanwhile service.new run fixed)
        × TakesRun D.sectors D.honest D.history (inner_service service.old) run (inner_service service.new)) }
{
    match LineWriter::new(rt.alloc(), rt.stderr()) {
        Ok(mut log) => serve_log(rt, asked, service, looks, &mut log),
        Err(_) => Err(CommandFault::Store(StoreFault::Memory)),
    }
}
