//! The connections of a listener to one map.
ghost use Rattle.std.specs.Prelude.{◌≡◌, ◌<◌, ◌≤◌, ℕ, List, [], Option, None, OnOk, OnErr};
ghost use Rattle.http_listen.specs.Connections.{AreOverKnown, Event, Serves, begun};
ghost use Rattle.http_listen.specs.Conversations.{Deed};
ghost use Rattle.http_listen.specs.Deeds.{AreEventsOf};
ghost use Rattle.http_listen.specs.Goes.{AreOver};
ghost use Rattle.http_listen.specs.Orders.{AreInOrder};
ghost use Rattle.service_laws.specs.Moments.{TakesBetweenReads};
ghost use Rattle.map_replies.specs.Preparing.{TellsMeanwhile, TellsMeanwhileRead, TellsPreparedFor};
ghost use Rattle.map_replies.specs.Preparing.{inner_service, meanwhile, without_draft};
ghost use Rattle.tile_service.specs.Machine.{Happening};
ghost use Rattle.tile_service.specs.Runs.{TakesRun};

use http_listen::{ListenFault, Logs, Talks, Waits, serve_on};
use map_replies::PreparingReplies;
use sector_disk::Sectors;
use std::alloc::Global;
use std::net::OpenStream;
use std::time::Clock;

/// Serves this many connections of a listener, in stretches one after the other, as `http_listen::serve_on` does.
///
/// # Errors
///
/// `Accept`, where a connection can't be accepted while none is kept. Those before it were served.
pub fn serve_map_on<D, L, W, C>(
    clock: &C,
    alloc: Global,
    listener: &mut L,
    connections: u64,
    service: &mut PreparingReplies<D>,
    log: &mut W,
) -> Result<(), ListenFault>
where
    D: Sectors + Drop,
    L: Waits,
    L::Stream: Talks + OpenStream,
    W: Logs<L::Stream>,
    C: Clock,
    // The replies of all stretches, in order, report one run of the service. A crash at any moment leaves some first edits of it: all
    // that were acknowledged by then, on whatever connection, and none asked for later. Reads of downloads between them add nothing to it, nor
    // do the tiles of a publication that are made meanwhile. Its beginning stands in the run where its map was fixed, and the steps of a whole one
    // where they were made, between other replies too. What a crash leaves is told by the states that the calls left (`TakesBetweenReads`): of such
    // states `service_laws::port_opens_to_its_first_edits` says that a disk that a crash leaves at any moment opens to the map after some first edits,
    // all that were acknowledged by then, and `service_laws::port_keeps_what_it_listed` that what the feed of edits has listed is among them.
    // The bytes of each stretch are known.
    ensures all { OnOk result ((served : List Event) × (begun served ≡ connections) × AreOverKnown served × (run : List Happening)
        × (fixed : Option ℕ) × Serves (TellsMeanwhile D.sectors D.honest D.history D.faults)
        (TellsMeanwhileRead D.sectors D.honest D.history D.faults) (TellsPreparedFor D.sectors D.honest D.history D.faults)
        (meanwhile (without_draft service.old) [] None) served (meanwhile service.new run fixed)
        × TakesRun D.sectors D.honest D.history (inner_service service.old) run (inner_service service.new)
        × TakesBetweenReads D.sectors D.honest D.history (inner_service service.old) run (inner_service service.new)) }
    ensures fewer { OnErr result ((served : List Event) × (begun served < connections) × AreOverKnown served × (run : List Happening)
        × (fixed : Option ℕ) × Serves (TellsMeanwhile D.sectors D.honest D.history D.faults)
        (TellsMeanwhileRead D.sectors D.honest D.history D.faults) (TellsPreparedFor D.sectors D.honest D.history D.faults)
        (meanwhile (without_draft service.old) [] None) served (meanwhile service.new run fixed)
        × TakesRun D.sectors D.honest D.history (inner_service service.old) run (inner_service service.new)
        × TakesBetweenReads D.sectors D.honest D.history (inner_service service.old) run (inner_service service.new)) }
    // Each connection that was accepted was given to the log as it was opened and as it was closed. Between the two its stream gave the bytes that were
    // answered by its acts, by each one request, or bytes that begin with none, and a rest, and took the replies, in order, or the first bytes of
    // them, and perhaps the reply for want of memory. The acts of all connections, in the order in which they were made, report one run of the
    // service.
    ensures named { (deeds : List Deed) × (served : List Event) × AreEventsOf deeds served × (run : List Happening) × (fixed : Option ℕ)
        × Serves (TellsMeanwhile D.sectors D.honest D.history D.faults)
        (TellsMeanwhileRead D.sectors D.honest D.history D.faults) (TellsPreparedFor D.sectors D.honest D.history D.faults)
        (meanwhile (without_draft service.old) [] None) served (meanwhile service.new run fixed)
        × TakesRun D.sectors D.honest D.history (inner_service service.old) run (inner_service service.new)
        × TakesBetweenReads D.sectors D.honest D.history (inner_service service.old) run (inner_service service.new)
        × AreInOrder connections deeds
        × ((count : ℕ) × (count ≤ connections) × OnOk result (count ≡ connections)
        × AreOver L.Stream.Talks.told count deeds (W.marks log.old) (W.marks log.new)) }
{
    service.forget();
    serve_on(clock, alloc, listener, connections, service, log)
}
