//! Lines about the peers that are served next.
use super::{Does, Gathered, Plan, Room};
use crate::lines::{Line, number_in};
use crate::texts::add_bytes;
use http_listen::MAX_HELD;
use http_serve::MAX_READS;
use script_bytes::{Answer, parted};
use script_disks::{ANY, asked, pair_in};
use std::alloc::Global;

/// A peer that comes at a time, and may say what it takes.
fn plan_in(text: &str) -> Option<Plan> {
    let (comes, takes) = parted(text);
    let comes = number_in(comes)?;
    if takes.is_empty() {
        return Some(Plan::new(comes, usize::MAX, 0));
    }
    let (quick, rate) = pair_in::<usize, usize>(takes, ' ')?;
    Some(Plan::new(comes, quick, rate))
}

/// What bounds a listener.
#[derive(Clone, Copy)]
enum Bound {
    None,
    Log,
    Time,
    Held,
    Reads,
}

/// The words for it.
static BOUNDS: [(&str, usize, Bound); 5] = [
    ("", ANY, Bound::None),
    ("log", 1, Bound::Log),
    ("until", 1, Bound::Time),
    ("held", 1, Bound::Held),
    ("reads", 1, Bound::Reads),
];

/// What bounds a listener, by a text.
pub(crate) fn room_in(text: &str) -> Option<Room> {
    let line = Line::of(text);
    let mut room = Room {
        log: usize::MAX,
        stops: u64::MAX,
        held: MAX_HELD,
        reads: MAX_READS,
    };
    match asked(&BOUNDS, line.word, line.count)? {
        Bound::None => {}
        Bound::Log => room.log = line.number as usize,
        Bound::Time => room.stops = line.number,
        Bound::Held => room.held = line.number as usize,
        Bound::Reads => room.reads = line.number,
    }
    Some(room)
}

/// Gathers the bytes that a peer sends at a time.
fn send(alloc: Global, gathered: &mut Gathered, text: &str, answer: &mut Answer) {
    let (at, text) = parted(text);
    let Some(at) = number_in(at) else {
        return answer.reject();
    };
    let mut bytes = Vec::new(alloc);
    if add_bytes(&mut bytes, text, answer) {
        gathered.send(at, &bytes, answer);
    } else {
        answer.clear();
        answer.say("no bytes");
    }
}

/// What is said of peers.
#[derive(Clone, Copy)]
pub(crate) enum OfPeer {
    Comes,
    Sends,
    Ends,
    Floods,
    Stubborn,
    Unwatched,
    More,
    Accepts,
}

/// Gathers what a line says of peers, and tells the line.
pub(crate) fn gather(
    alloc: Global,
    gathered: &mut Gathered,
    asks: OfPeer,
    line: Line<'_>,
    answer: &mut Answer,
) {
    answer.say(line.text);
    match asks {
        OfPeer::Comes => gathered.add(plan_in(line.rest), answer),
        OfPeer::Sends => send(alloc, gathered, line.rest, answer),
        OfPeer::Ends => gathered.act(line.number, Does::Ends, answer),
        OfPeer::Floods => gathered.act(line.number, Does::Floods, answer),
        OfPeer::Stubborn => gathered.limit(true, false),
        OfPeer::Unwatched => gathered.limit(false, true),
        OfPeer::More => gathered.add_more(line.number, answer),
        OfPeer::Accepts => gathered.accept(line.rest, answer),
    }
}
