//! The connections of a port to a map whose edits are to be on two machines.
ghost use Rattle.std.specs.Prelude.{◌≡◌, ◌≤◌, ℕ, List, [], Option, None, OnOk};
ghost use Rattle.http_listen.specs.Connections.{AreOverKnown, Event, Serves, begun};
ghost use Rattle.map_replies.specs.Confirming.{TellsConfirmed, TellsConfirmedRead, TellsConfirmedFor, confirming, confirmed_without_draft};
ghost use Rattle.map_replies.specs.Preparing.{inner_service};
ghost use Rattle.tile_service.specs.Machine.{Happening};
ghost use Rattle.tile_service.specs.Runs.{TakesRun};

use crate::fault::{Cause, CommandFault};
use crate::listening::{Listening, listener_on};
use crate::looks::Looks;
use crate::watching::Halting;
use generations::StoreFault;
use http_listen::{ListenFault, Log};
use map_replies::ConfirmedReplies;
use map_server::serve_confirmed_on;
use sector_disk::Sectors;
use std::cell::Cell;
use std::io::{LineWriter, Write};

/// Serves the connections by turns, with this log. The disk file is watched meanwhile.
fn confirm_log<D: Sectors + Drop, W: Write>(
    rt: &HostRuntime,
    asked: Listening,
    service: &mut ConfirmedReplies<D>,
    looks: &Looks<'_>,
    log: &mut W,
) -> Result<(), CommandFault>
    ensures all { OnOk result ((served : List Event) × (begun served ≡ asked.connections) × AreOverKnown served × (run : List Happening)
        × (fixed : Option ℕ) × Serves (TellsConfirmed D.sectors D.honest D.history D.faults)
        (TellsConfirmedRead D.sectors D.honest D.history D.faults) (TellsConfirmedFor D.sectors D.honest D.history D.faults)
        (confirming (confirmed_without_draft service.old) [] None) served (confirming service.new run fixed)
        × TakesRun D.sectors D.honest D.history (inner_service service.old.inner) run (inner_service service.new.inner)) }
{
    let cause: Cell<Cause> = Cell::new(None);
    let mut listener = Halting {
        listener: listener_on(rt, asked.port)?,
        halts: asked.stops,
        looks,
        cause: &cause,
    };
    looks.begin();
    let connections = u64::from(asked.connections);
    let mut lines = Log::new(log);
    let outcome = serve_confirmed_on(
        rt,
        rt.alloc(),
        &mut listener,
        connections,
        service,
        &mut lines,
    );
    drop(listener);
    match outcome {
        _ if asked.stops && looks.has_failed() => Err(CommandFault::Told),
        Ok(()) => Ok(()),
        Err(ListenFault::Accept) => Err(CommandFault::Listen {
            port: asked.port,
            cause: cause.get(),
        }),
    }
}

/// Serves the connections by turns, with their log on standard error, where the reply to an edit waits until a standby has the edit.
pub(crate) fn confirm_connections<D: Sectors + Drop>(
    rt: &HostRuntime,
    asked: Listening,
    service: &mut ConfirmedReplies<D>,
    looks: &Looks<'_>,
) -> Result<(), CommandFault>
    ensures all { OnOk result ((served : List Event) × (begun served ≡ asked.connections) × AreOverKnown served × (run : List Happening)
        × (fixed : Option ℕ) × Serves (TellsConfirmed D.sectors D.honest D.history D.faults)
        (TellsConfirmedRead D.sectors D.honest D.history D.faults) (TellsConfirmedFor D.sectors D.honest D.history D.faults)
        (confirming (confirmed_without_draft service.old) [] None) served (confirming service.new run fixed)
        × TakesRun D.sectors D.honest D.history (inner_service service.old.inner) run (inner_service service.new.inner)) }
{
    match LineWriter::new(rt.alloc(), rt.stderr()) {
        Ok(mut log) => confirm_log(rt, asked, service, looks, &mut log),
        Err(_) => Err(CommandFault::Store(StoreFault::Memory)),
    }
}
