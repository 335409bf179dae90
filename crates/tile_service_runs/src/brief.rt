//! Answers of a service, briefly.
use script_bytes::{Answer, digest, spelled_briefly};
use std::alloc::Global;

/// The longest text that is told in full.
const LONGEST: usize = 240;

/// Tells a text, or its length and hash if it is long.
pub(crate) fn tell_briefly(text: &str, answer: &mut Answer) {
    let count = text.len();
    if count <= LONGEST {
        return answer.say(text);
    }
    let hash = digest(text.as_bytes());
    write!(answer, "{count} letters {hash:016x}");
}

/// Tells the bytes of a tile, or what else an event was answered in the form of `{:?}`.
fn tell_event(alloc: Global, of_event: &tile_service::Answer, answer: &mut Answer) {
    match of_event {
        tile_service::Answer::Tile(Some(bytes)) => {
            answer.say("Tile(");
            answer.add(spelled_briefly(alloc, bytes));
            answer.say(")");
        }
        other => {
            if let Some(text) = answer.granted(format!(in alloc; "{other:?}")) {
                tell_briefly(&text, answer);
            }
        }
    }
}

/// Tells what the events of a run were answered.
pub(crate) fn tell_events(alloc: Global, of_events: &[tile_service::Answer], answer: &mut Answer) {
    for (place, of_event) in of_events.iter().enumerate() {
        if place > 0 {
            answer.say("; ");
        }
        tell_event(alloc, of_event, answer);
    }
}
