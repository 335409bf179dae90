//! Connections, and what is told of them.
use super::stands::Map;
use super::streams::Pieces;
use super::texts::tell_bytes;
use http_serve::{ServeFault, Served};
use map_replies::serve_map_turns;
use script_bytes::Answer;
use script_disks::{Narrow, Narrowness};
use std::alloc::Global;

/// What a connection came to.
#[derive(Drop)]
struct Outcome {
    result: Result<Served, ServeFault>,
    reply: Vec<u8>,
    /// How many bytes were read, and how many reads failed.
    read: usize,
    failed: usize,
}

/// What a connection may do: what its writer takes, and how many reads are made.
#[derive(Clone, Copy)]
pub(crate) struct Bounds {
    pub(crate) narrowness: Narrowness,
    pub(crate) turns: u64,
}

/// Serves a connection.
fn talk(alloc: Global, map: &mut Map, pieces: Pieces<'_>, bounds: Bounds) -> Outcome {
    let mut reader = pieces;
    let mut writer = Narrow::new(alloc, bounds.narrowness);
    let result = serve_map_turns(
        alloc,
        &mut reader,
        &mut writer,
        map.replies_mut(),
        bounds.turns,
    );
    Outcome {
        result,
        reply: writer.taken,
        read: pieces.rest.len().saturating_sub(reader.rest.len()),
        failed: reader.failed,
    }
}

/// Tells what a connection came to.
fn tell_outcome(outcome: &Outcome, answer: &mut Answer) {
    let Outcome {
        result,
        reply,
        read,
        failed,
    } = outcome;
    write!(answer, "{result:?}, {read} read, {failed} failed: ");
    tell_bytes(reply, answer);
}

/// Tells what a connection came to in pieces of another size.
fn tell_other(size: usize, outcome: &Outcome, first: &Outcome, answer: &mut Answer) {
    write!(answer, " | {size}: ");
    if outcome.reply == first.reply && outcome.result == first.result {
        let Outcome { read, failed, .. } = outcome;
        write!(answer, "same, {read} read, {failed} failed");
    } else {
        tell_outcome(outcome, answer);
    }
}

/// Adds the sizes of pieces, and says whether these are some.
fn add_sizes(sizes: &mut Vec<usize>, text: &str, answer: &mut Answer) -> bool {
    let mut are_some = true;
    for word in text.split(',') {
        match word.parse::<usize>() {
            Ok(size) if size > 0 => answer.note(sizes.push(size)),
            _ => are_some = false,
        }
    }
    are_some
}

/// Serves a connection of the same bytes for each of these sizes, and tells what they came to.
fn tell_talks(
    alloc: Global,
    map: &mut Map,
    sizes: &[usize],
    given: Pieces<'_>,
    bounds: Bounds,
    answer: &mut Answer,
) {
    let Some((size, others)) = sizes.split_first() else {
        return;
    };
    let size = *size;
    let first = talk(alloc, map, Pieces { size, ..given }, bounds);
    tell_outcome(&first, answer);
    for size in others {
        let size = *size;
        let other = talk(alloc, map, Pieces { size, ..given }, bounds);
        tell_other(size, &other, &first, answer);
    }
}

/// Serves a connection of the same bytes for each size of the pieces, and tells what they came to.
pub(crate) fn talks(
    alloc: Global,
    map: &mut Map,
    sizes: &str,
    given: Pieces<'_>,
    bounds: Bounds,
    answer: &mut Answer,
) {
    let mut each = Vec::new(alloc);
    if add_sizes(&mut each, sizes, answer) {
        tell_talks(alloc, map, &each, given, bounds, answer);
    } else {
        answer.say("no sizes");
    }
}
