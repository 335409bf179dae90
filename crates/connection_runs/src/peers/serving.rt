//! Peers that are served, and what is told of them.
use super::listener::{Accepts, Listener};
use super::{Gathered, Peer, Room, Watch};
use crate::stands::{Map, NeedingMap};
use crate::texts::tell_bytes;
use http_listen::Log;
use map_server::{serve_confirmed_on, serve_map_on};
use script_bytes::Answer;
use script_disks::{Narrow, Narrowness, WIDE};
use std::alloc::Global;
use std::cell::Cell;

/// What serves peers.
pub(crate) enum Serving<'a> {
    /// A map.
    Map(&'a mut Map),
    /// A map whose edits need a standby.
    Needing(&'a mut NeedingMap),
}

/// Serves peers by a map. Whether the listener failed, and when that was over.
fn serve<'a>(
    alloc: Global,
    map: Serving<'_>,
    peers: &'a [Peer<'a>],
    accepts: &'a [Accepts],
    room: Room,
    log: &mut Narrow,
) -> (bool, u64) {
    let now = Cell::new(0);
    let watch = Watch { now: &now };
    let mut listener = Listener::new(peers, accepts, room, watch);
    let count = peers.len() as u64;
    let mut lines = Log::new(log);
    let ended = match map {
        Serving::Map(map) => serve_map_on(&watch, alloc, &mut listener, count, map, &mut lines),
        Serving::Needing(map) => {
            serve_confirmed_on(&watch, alloc, &mut listener, count, map, &mut lines)
        }
    };
    (ended.is_err(), now.get())
}

/// Tells what a peer got.
fn tell_peer(peer: &Peer<'_>, answer: &mut Answer) {
    let course = peer.course.get();
    write!(answer, " | {}", course.last);
    if course.is_early {
        answer.say(", early");
    }
    if course.dropped > 0 {
        write!(answer, ", {} dropped", course.dropped);
    }
    answer.say(": ");
    match peer.got.try_borrow() {
        Ok(got) => tell_bytes(&got, answer),
        Err(_) => answer.refuse(),
    }
}

/// Whether the same is told of two peers.
fn is_same(one: &Peer<'_>, other: &Peer<'_>) -> bool {
    let (course, others) = (one.course.get(), other.course.get());
    let is_as_told = course.last == others.last
        && course.is_early == others.is_early
        && course.dropped == others.dropped;
    match (one.got.try_borrow(), other.got.try_borrow()) {
        (Ok(got), Ok(others)) => is_as_told && got.as_slice() == others.as_slice(),
        _ => false,
    }
}

/// Tells what each peer got.
fn tell_peers(peers: &[Peer<'_>], answer: &mut Answer) {
    for (place, peer) in peers.iter().enumerate() {
        match peers.get(place.wrapping_sub(1)) {
            Some(before) if is_same(before, peer) => answer.say(" | same"),
            _ => tell_peer(peer, answer),
        }
    }
}

/// Serves peers by a map, and tells how the listener ended, when that was, and its log.
fn tell_served<'a>(
    alloc: Global,
    map: Serving<'_>,
    peers: &'a [Peer<'a>],
    accepts: &'a [Accepts],
    room: Room,
    answer: &mut Answer,
) {
    let narrowness = Narrowness {
        room: room.log,
        fails: false,
        ..WIDE
    };
    let mut log = Narrow::new(alloc, narrowness);
    let (fails, time) = serve(alloc, map, peers, accepts, room, &mut log);
    let ended = if fails { "failed" } else { "served" };
    write!(answer, "{ended}, {time}: ");
    tell_bytes(&log.taken, answer);
}

/// Serves the peers that were gathered by a map. Told are whether the listener failed, when that was over, the log, and of each peer when
/// the last byte came and all that it got, or that it is the same as of the peer before.
pub(crate) fn serve_peers(
    alloc: Global,
    map: Serving<'_>,
    gathered: &Gathered,
    room: Room,
    answer: &mut Answer,
) {
    let mut peers = Vec::new(alloc);
    gathered.add_peers(alloc, &mut peers, answer);
    tell_served(alloc, map, &peers, &gathered.accepts, room, answer);
    tell_peers(&peers, answer);
}
