//! Lines over an index of boxes.
use super::blocks;
use crate::lines::{Line, byte};
use box_index::{BoxIndex, IndexEntry, Span};
use feature_model::WorldBox;
use script_bytes::{Answer, short};

/// What a line over an index asks for.
#[derive(Clone, Copy)]
pub(crate) enum Asks {
    Add,
    Take,
    Query,
    Scatter,
    Gather,
    Blocks,
}

/// The box of these columns and rows.
pub(crate) fn bounds_of(x0: u64, x1: u64, y0: u64, y1: u64) -> WorldBox {
    WorldBox {
        x0: short(x0),
        x1: short(x1),
        y0: short(y0),
        y1: short(y1),
    }
}

/// The entry of a number, columns, rows, and zooms.
fn entry_of([id, x0, x1, y0, y1, minzoom, maxzoom, _]: [u64; 8]) -> IndexEntry {
    IndexEntry {
        id,
        span: Span {
            bounds: bounds_of(x0, x1, y0, y1),
            minzoom: byte(minzoom),
            maxzoom: byte(maxzoom),
        },
    }
}

/// The entry of three columns and three rows for a place of a row of such: columns ascend by this step, rows by the other one,
/// both modulo 2^32.
fn nth(place: u32, across: u64, down: u64) -> IndexEntry {
    let x = place.wrapping_mul(short(across));
    let y = place.wrapping_mul(short(down));
    IndexEntry {
        id: u64::from(place),
        span: Span {
            bounds: WorldBox {
                x0: x,
                x1: x.saturating_add(2),
                y0: y,
                y1: y.saturating_add(2),
            },
            minzoom: 3,
            maxzoom: 7,
        },
    }
}

fn add(answer: &mut Answer, index: &mut BoxIndex, entry: IndexEntry) {
    if index.room().is_err() {
        return answer.refuse();
    }
    index.insert(entry);
    answer.say("added");
}

fn take(answer: &mut Answer, index: &mut BoxIndex, entry: IndexEntry) {
    let found = if index.remove(&entry) {
        "taken"
    } else {
        "not there"
    };
    answer.say(found);
}

fn query(answer: &mut Answer, index: &BoxIndex, numbers: [u64; 8]) {
    let [x0, x1, y0, y1, zoom, ..] = numbers;
    answer.show_made(&index.query(answer.alloc(), &bounds_of(x0, x1, y0, y1), byte(zoom)));
}

/// Adds a number of entries.
fn scatter(answer: &mut Answer, index: &mut BoxIndex, [count, across, down, ..]: [u64; 8]) {
    for place in 0..short(count) {
        if index.room().is_err() {
            return answer.refuse();
        }
        index.insert(nth(place, across, down));
    }
    answer.say("added");
}

/// Takes out a count of such entries, but one in a number of them: how many were there.
fn gather(answer: &mut Answer, index: &mut BoxIndex, numbers: [u64; 8]) {
    let [count, across, down, one_in, ..] = numbers;
    let mut taken = 0u64;
    for place in 0..short(count) {
        let is_due = u64::from(place).checked_rem(one_in) != Some(0);
        if is_due && index.remove(&nth(place, across, down)) {
            taken = taken.wrapping_add(1);
        }
    }
    write!(answer, "{taken} taken");
}

/// Whether there are at most this many blocks, by what an index prints of itself: no contract counts them.
fn index_blocks(answer: &mut Answer, index: &BoxIndex, most: u64) {
    answer.show(&index);
    let count = match answer.text().split_once(", spare: ") {
        Some((blocks, _)) => blocks.matches("Block {").count(),
        None => 0,
    };
    answer.clear();
    blocks(answer, count, most);
}

/// Answers a line over an index.
pub(crate) fn answer(answer: &mut Answer, index: &mut BoxIndex, asks: Asks, line: &Line<'_>) {
    let numbers = line.numbers;
    match asks {
        Asks::Add => add(answer, index, entry_of(numbers)),
        Asks::Take => take(answer, index, entry_of(numbers)),
        Asks::Query => query(answer, index, numbers),
        Asks::Scatter => scatter(answer, index, numbers),
        Asks::Gather => gather(answer, index, numbers),
        Asks::Blocks => index_blocks(answer, index, numbers[0]),
    }
}
