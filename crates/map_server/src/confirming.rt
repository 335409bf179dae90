//! The connections of a listener to one map whose edits are to be on two machines.
ghost use Rattle.std.specs.Prelude.{◌≡◌, ◌<◌, ◌≤◌, ℕ, List, [], Option, None, OnOk, OnErr};
ghost use Rattle.http_listen.specs.Connections.{AreOverKnown, Event, Serves, begun};
ghost use Rattle.http_listen.specs.Conversations.{Deed};
ghost use Rattle.http_listen.specs.Deeds.{AreEventsOf};
ghost use Rattle.http_listen.specs.Goes.{AreOver};
ghost use Rattle.http_listen.specs.Orders.{AreInOrder};
ghost use Rattle.service_laws.specs.Moments.{TakesBetweenReads};
ghost use Rattle.map_replies.specs.Confirming.{TellsConfirmed, TellsConfirmedRead, TellsConfirmedFor, confirming, confirmed_without_draft};
ghost use Rattle.map_replies.specs.Preparing.{inner_service};
ghost use Rattle.tile_service.specs.Machine.{Happening};
ghost use Rattle.tile_service.specs.Runs.{TakesRun};

use http_listen::{ListenFault, Logs, Talks, Waits, serve_on};
use map_replies::ConfirmedReplies;
use sector_disk::Sectors;
use std::alloc::Global;
use std::net::OpenStream;
use std::time::Clock;

/// Serves this many connections of a listener, as `serve_map_on` does, where the reply to an edit waits until a standby has the edit.
///
/// # Errors
///
/// As of `serve_map_on`.
pub fn serve_confirmed_on<D, L, W, C>(
    clock: &C,
    alloc: Global,
    listener: &mut L,
    connections: u64,
    service: &mut ConfirmedReplies<D>,
    log: &mut W,
) -> Result<(), ListenFault>
where
    D: Sectors + Drop,
    L: Waits,
    L::Stream: Talks + OpenStream,
    W: Logs<L::Stream>,
    C: Clock,
    // What is replied reports one run of the service, as without standbys, but for edits that are refused, by which nothing happens. What is confirmed
    // rises only by a standby's request, and an edit's reply waits for that.
    ensures all { OnOk result ((served : List Event) × (begun served ≡ connections) × AreOverKnown served × (run : List Happening)
        × (fixed : Option ℕ) × Serves (TellsConfirmed D.sectors D.honest D.history D.faults)
        (TellsConfirmedRead D.sectors D.honest D.history D.faults) (TellsConfirmedFor D.sectors D.honest D.history D.faults)
        (confirming (confirmed_without_draft service.old) [] None) served (confirming service.new run fixed)
        × TakesRun D.sectors D.honest D.history (inner_service service.old.inner) run (inner_service service.new.inner)
        × TakesBetweenReads D.sectors D.honest D.history (inner_service service.old.inner) run (inner_service service.new.inner)) }
    ensures fewer { OnErr result ((served : List Event) × (begun served < connections) × AreOverKnown served × (run : List Happening)
        × (fixed : Option ℕ) × Serves (TellsConfirmed D.sectors D.honest D.history D.faults)
        (TellsConfirmedRead D.sectors D.honest D.history D.faults) (TellsConfirmedFor D.sectors D.honest D.history D.faults)
        (confirming (confirmed_without_draft service.old) [] None) served (confirming service.new run fixed)
        × TakesRun D.sectors D.honest D.history (inner_service service.old.inner) run (inner_service service.new.inner)
        × TakesBetweenReads D.sectors D.honest D.history (inner_service service.old.inner) run (inner_service service.new.inner)) }
    ensures named { (deeds : List Deed) × (served : List Event) × AreEventsOf deeds served × (run : List Happening) × (fixed : Option ℕ)
        × Serves (TellsConfirmed D.sectors D.honest D.history D.faults)
        (TellsConfirmedRead D.sectors D.honest D.history D.faults) (TellsConfirmedFor D.sectors D.honest D.history D.faults)
        (confirming (confirmed_without_draft service.old) [] None) served (confirming service.new run fixed)
        × TakesRun D.sectors D.honest D.history (inner_service service.old.inner) run (inner_service service.new.inner)
        × TakesBetweenReads D.sectors D.honest D.history (inner_service service.old.inner) run (inner_service service.new.inner)
        × AreInOrder connections deeds
        × ((count : ℕ) × (count ≤ connections) × OnOk result (count ≡ connections)
        × AreOver L.Stream.Talks.told count deeds (W.marks log.old) (W.marks log.new)) }
{
    service.forget();
    serve_on(clock, alloc, listener, connections, service, log)
}
