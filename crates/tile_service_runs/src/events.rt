//! Events as words of a line. Where memory is refused, that is noted in the answer.
use super::features::{feature_in, zoom_in};
use feature_model::Change;
use hilbert_id::TileAt;
use script_bytes::{Answer, parted};
use script_disks::{ANY, asked, keep, pair_in};
use std::alloc::Global;
use tile_service::Event;

/// Parses the number and the feature of a put.
fn put_in(alloc: Global, text: &str, answer: &mut Answer) -> Option<Change> {
    let (number, words) = text.split_once(' ')?;
    let id = number.parse::<u64>().ok()?;
    let feature = feature_in(alloc, words, answer)?;
    Some(Change::Put { id, feature })
}

/// Parses a change. `None` if the text is none.
fn change_in(alloc: Global, text: &str, answer: &mut Answer) -> Option<Change> {
    let (word, rest) = parted(text);
    match word {
        "put" => put_in(alloc, rest, answer),
        "delete" => Some(Change::Delete {
            id: rest.parse::<u64>().ok()?,
        }),
        _ => None,
    }
}

/// Adds the changes of a batch, with ` & ` between them. No text is a batch of none.
fn add_changes(alloc: Global, changes: &mut Vec<Change>, text: &str, answer: &mut Answer) {
    if text.is_empty() {
        return;
    }
    for change in text.split(" & ") {
        let change = change_in(alloc, change, answer);
        keep(changes, change, answer);
    }
}

/// Parses a batch.
fn batch_in(alloc: Global, text: &str, answer: &mut Answer) -> Event {
    let mut changes = Vec::new(alloc);
    add_changes(alloc, &mut changes, text, answer);
    Event::Batch { changes }
}

/// Parses the event of one change. `None` if the text is none.
fn single_in(alloc: Global, text: &str, answer: &mut Answer) -> Option<Event> {
    match change_in(alloc, text, answer)? {
        Change::Put { id, feature } => Some(Event::Put { id, feature }),
        Change::Delete { id } => Some(Event::Delete { id }),
    }
}

/// Parses the coordinates of a tile. `None` if there is no such tile.
fn tile_in(text: &str) -> Option<Event> {
    let (zoom, rest) = zoom_in(text)?;
    let (x, y) = pair_in(rest, ' ')?;
    let at = TileAt::new(zoom, x, y)?;
    Some(Event::Tile { at })
}

/// What the word of an event asks for.
#[derive(Clone, Copy)]
enum Asks {
    Change,
    Batch,
    Tile,
    Look,
    Begin,
    Step,
    Cancel,
}

/// The words of events.
static EVENTS: [(&str, usize, Asks); 8] = [
    ("put", ANY, Asks::Change),
    ("delete", ANY, Asks::Change),
    ("batch", ANY, Asks::Batch),
    ("tile", ANY, Asks::Tile),
    ("look", ANY, Asks::Look),
    ("begin", ANY, Asks::Begin),
    ("step", ANY, Asks::Step),
    ("cancel", ANY, Asks::Cancel),
];

/// Parses an event. `None` if the text is none.
fn event_in(alloc: Global, text: &str, answer: &mut Answer) -> Option<Event> {
    let (word, rest) = parted(text);
    match asked(&EVENTS, word, ANY)? {
        Asks::Change => single_in(alloc, text, answer),
        Asks::Batch => Some(batch_in(alloc, rest, answer)),
        Asks::Tile => tile_in(rest),
        Asks::Look => Some(Event::Look {
            id: rest.parse::<u64>().ok()?,
        }),
        Asks::Begin => Some(Event::Begin),
        Asks::Step => Some(Event::Step),
        Asks::Cancel => Some(Event::Cancel),
    }
}

/// Adds a run of events; `nothing` is a run of none. A line that has anything else is rejected.
pub(crate) fn add_events(alloc: Global, events: &mut Vec<Event>, line: &str, answer: &mut Answer) {
    if line == "nothing" {
        return;
    }
    for text in line.split("; ") {
        let event = event_in(alloc, text, answer);
        keep(events, event, answer);
    }
}
