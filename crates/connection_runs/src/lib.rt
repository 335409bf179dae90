//! The part `connections`: connections to a map on a disk in memory, served by the call that the program itself makes.
//!
//! | Line | Does |
//! |---|---|
//! | `disk N` | makes a disk of N sectors that holds the empty map, and opens it |
//! | `first N` | the same in the first version of the format |
//! | `upgrade` | closes the disk, and upgrades it to the last version |
//! | `zeros N` | makes a disk of N sectors of zeros, which isn't opened |
//! | `sector AT BYTE` | closes the disk, and writes this byte and zeros into a sector of it |
//! | `again` | opens the disk again |
//! | `again from N`, `again lost N`, `again made N` | the same, and lets calls of the disk fail, counted from the opening on: |
//! | | each from the N-th on, the N-th before it is made, the N-th after |
//! | `admin`, `admin from N` and so on | as `again`, and serves the paths under `/admin/` too |
//! | `standby`, `standby from N` and so on | as `admin`, where edits need a standby: `serve` alone serves that |
//! | `tags N`, `tags` | what is opened from now on has entity tags, of which those of tiles begin with N; it has none |
//! | `writer SIZE ROOM fails` | from now on the writer takes SIZE bytes a call at most and ROOM bytes of a connection, and then fails |
//! | `writer SIZE ROOM full` | the same, but then it takes nothing |
//! | `writer` | it takes all bytes again |
//! | `turns N`, `turns` | from now on a connection makes N reads at most; as many as the program lets it |
//! | `ask SIZES TEXT` | serves a connection of these bytes, whose input then ends |
//! | `wait SIZES TEXT` | the same, but a read after these bytes fails, as where a connection stays open and is given up |
//! | `peer AT`, `peer AT QUICK RATE` | a peer of the next listener connects after AT milliseconds, takes QUICK bytes at once, and RATE more in each |
//! | | tenth of a second; without these all |
//! | `sends AT TEXT`, `ends AT`, `floods AT` | it sends these bytes then, ends its side, or sends bytes without end |
//! | `stubborn`, `unwatched` | nothing of its stream can be set, or it can't be watched |
//! | `more N` | N more peers do the same |
//! | `accepts N ERROR` | the next N accepts of that listener fail with this error of Linux: 0 if they don't, -1 for none of Linux |
//! | `serve` | serves these peers by a listener and its clock, as the program does |
//! | `serve log N`, `serve until AT` | the same with a log that takes N bytes, and with a listener that stops after AT milliseconds |
//! | `serve held N`, `serve reads N` | the same with connections that hold N bytes together at most, and with N reads of each |
//!
//! SIZES are the most bytes that a read gives, such as `4096,1`: the connection is served once for each. `texts::add_bytes` says how a TEXT spells
//! bytes. The answer has the result, how many bytes were read, how many reads failed, and all that was written; `same` if another size gives the
//! same result and the same bytes. For peers it has whether the listener failed, after how many milliseconds it ended, the log, and for each peer
//! when the last byte came and all that it got; `same` if the peer before got the same.
#![tactic(auto)]

mod lines;
mod peers;
mod stands;
mod streams;
mod talks;
mod texts;

use http_serve::MAX_READS;
use lines::{Line, narrowness_in};
use peers::{Gathered, OfPeer, Serving, gather, room_in, serve_peers};
use script_bytes::{Answer, parted};
use script_disks::{ANY, WIDE, asked};
use sector_disk::MemoryDisk;
use stands::{OfStand, Stand};
use std::alloc::{AllocError, Global};
use streams::Pieces;
use talks::{Bounds, talks};
use texts::add_bytes;

/// The state of a script: a disk or what answers over it, and what lines before said of connections and of the peers that are served next.
/// It ends by `end` alone.
pub struct Trial {
    stand: Stand,
    tags: Option<u64>,
    bounds: Bounds,
    gathered: Gathered,
}

impl Trial {
    /// A closed disk, and connections without bounds.
    pub fn new(alloc: Global) -> Result<Trial, AllocError> {
        Ok(Trial {
            stand: Stand::Closed(MemoryDisk::new(alloc, 1)?),
            tags: None,
            bounds: Bounds {
                narrowness: WIDE,
                turns: MAX_READS,
            },
            gathered: Gathered::new(alloc),
        })
    }
}

impl Trial {
    /// Lets the stand go, and what was gathered.
    pub fn end(self) {
        let Trial {
            stand,
            tags: _,
            bounds: _,
            gathered,
        } = self;
        stand.end();
        drop(gathered);
    }
}

/// Serves a connection, where a map is open. Its bytes end with its input, unless it stays open.
fn connect(alloc: Global, trial: &mut Trial, open: bool, line: &str, answer: &mut Answer) {
    let (sizes, text) = parted(line);
    let mut bytes = Vec::new(alloc);
    if add_bytes(&mut bytes, text, answer) {
        let given = Pieces {
            rest: &bytes,
            size: 1,
            open,
            failed: 0,
        };
        match &mut trial.stand {
            Stand::Open(map) => talks(alloc, map, sizes, given, trial.bounds, answer),
            Stand::Closed(_) => answer.say("closed"),
            Stand::Needing(_) => answer.say("no listener"),
        }
    } else {
        answer.say("no bytes");
    }
}

/// Serves the peers that were gathered, where a map is open. They are gone then.
fn listen(alloc: Global, trial: &mut Trial, room: &str, answer: &mut Answer) {
    let Some(room) = room_in(room) else {
        return answer.reject();
    };
    match &mut trial.stand {
        Stand::Open(map) => { serve_peers(alloc, Serving::Map(map), &trial.gathered, room, answer) }
        Stand::Needing(map) => {
            serve_peers(alloc, Serving::Needing(map), &trial.gathered, room, answer)
        }
        Stand::Closed(_) => answer.say("closed"),
    }
    trial.gathered.clear();
}

/// Sets what writers take.
fn narrow(bounds: &mut Bounds, text: &str, answer: &mut Answer) {
    match narrowness_in(text) {
        Some(narrowness) => {
            bounds.narrowness = narrowness;
            answer.say("writer");
        }
        None => answer.reject(),
    }
}

/// Sets how many reads a connection makes.
fn turn(bounds: &mut Bounds, turns: u64, answer: &mut Answer) {
    bounds.turns = turns;
    answer.say("turns");
}

/// Sets the number that tags of tiles begin with where a disk is opened.
fn tag(trial: &mut Trial, tags: Option<u64>, answer: &mut Answer) {
    trial.tags = tags;
    answer.say("tags");
}

/// What a line asks for.
#[derive(Clone, Copy)]
enum Asks {
    Tags,
    NoTags,
    Stand(OfStand),
    Peer(OfPeer),
    Writer,
    AllTurns,
    Turns,
    Ask,
    Wait,
    Serve,
}

/// The words of lines, with how many numbers follow them and what they ask for.
static LINES: [(&str, usize, Asks); 24] = [
    ("tags", 0, Asks::NoTags),
    ("tags", 1, Asks::Tags),
    ("disk", 1, Asks::Stand(OfStand::Begin)),
    ("first", 1, Asks::Stand(OfStand::First)),
    ("zeros", 1, Asks::Stand(OfStand::Zeros)),
    ("upgrade", 0, Asks::Stand(OfStand::Upgrade)),
    ("sector", ANY, Asks::Stand(OfStand::Sector)),
    ("again", ANY, Asks::Stand(OfStand::Again)),
    ("admin", ANY, Asks::Stand(OfStand::Admin)),
    ("standby", ANY, Asks::Stand(OfStand::Standby)),
    ("peer", ANY, Asks::Peer(OfPeer::Comes)),
    ("sends", ANY, Asks::Peer(OfPeer::Sends)),
    ("ends", 1, Asks::Peer(OfPeer::Ends)),
    ("floods", 1, Asks::Peer(OfPeer::Floods)),
    ("stubborn", 0, Asks::Peer(OfPeer::Stubborn)),
    ("unwatched", 0, Asks::Peer(OfPeer::Unwatched)),
    ("more", 1, Asks::Peer(OfPeer::More)),
    ("accepts", ANY, Asks::Peer(OfPeer::Accepts)),
    ("writer", ANY, Asks::Writer),
    ("turns", 0, Asks::AllTurns),
    ("turns", 1, Asks::Turns),
    ("ask", ANY, Asks::Ask),
    ("wait", ANY, Asks::Wait),
    ("serve", ANY, Asks::Serve),
];

/// Does what a line asks for.
fn run(alloc: Global, trial: &mut Trial, asks: Asks, line: Line<'_>, answer: &mut Answer) {
    match asks {
        Asks::Tags => tag(trial, Some(line.number), answer),
        Asks::NoTags => tag(trial, None, answer),
        Asks::Stand(asks) => {
            stands::run(alloc, &mut trial.stand, trial.tags, asks, line, answer)
        }
        Asks::Peer(asks) => gather(alloc, &mut trial.gathered, asks, line, answer),
        Asks::Writer => narrow(&mut trial.bounds, line.rest, answer),
        Asks::AllTurns => turn(&mut trial.bounds, MAX_READS, answer),
        Asks::Turns => turn(&mut trial.bounds, line.number, answer),
        Asks::Ask => connect(alloc, trial, false, line.rest, answer),
        Asks::Wait => connect(alloc, trial, true, line.rest, answer),
        Asks::Serve => listen(alloc, trial, line.rest, answer),
    }
}

/// Answers a line of text.
pub fn answer_to(alloc: Global, trial: &mut Trial, text: &str, answer: &mut Answer) {
    let line = Line::of(text);
    match asked(&LINES, line.word, line.count) {
        Some(asks) => run(alloc, trial, asks, line, answer),
        None => answer.reject(),
    }
}
