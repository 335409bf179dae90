//! Lines about numbers: of shapes, signed ones, ids of tiles, and those that texts write.
use super::examples::example;
use crate::lines::{Line, tile_at};
use geometry_commands::{ShapeKind, decode, encode_lines, encode_rings};
use hilbert_id::{id_of, tile_of};
use http_values::{are_digits, byte_range, digits_number, push_number, push_text};
use pb_wire::{put_varint, unzigzag, zigzag};
use script_bytes::{Answer, number_in, parted, short};

/// What a line about numbers asks for.
#[derive(Clone, Copy)]
pub(crate) enum Asks {
    Shape,
    Example,
    Nothing,
    Spell,
    Zigzag,
    Unzigzag,
    Id,
    Place,
    Range,
    Digits,
    Written,
}

fn kind_in(word: &str) -> ShapeKind {
    match word {
        "points" => ShapeKind::Points,
        "lines" => ShapeKind::Lines,
        "polygons" => ShapeKind::Polygons,
        _ => ShapeKind::Unknown,
    }
}

/// The shape of a kind that integers spell.
fn shape(answer: &mut Answer, rest: &str) {
    let (kind, others) = parted(rest);
    let mut integers = Vec::new(answer.alloc());
    for word in others.split_whitespace() {
        answer.note(integers.push(short(number_in(word))));
    }
    answer.show_read(&decode(answer.alloc(), kind_in(kind), &integers));
}

/// The integers of no lines, and of no rings.
fn nothing(answer: &mut Answer) {
    answer.show_made(&encode_lines(answer.alloc(), &[]));
    answer.push(' ');
    answer.show_made(&encode_rings(answer.alloc(), &[]));
}

/// Numbers as they are encoded one after the other.
fn spell(answer: &mut Answer, rest: &str) {
    let mut out = Vec::new(answer.alloc());
    for word in rest.split_whitespace() {
        answer.note(put_varint(&mut out, number_in(word)));
    }
    answer.hex(&out);
}

/// The tile of a zoom, a column and a row, and its id.
fn id(answer: &mut Answer, numbers: [u64; 8]) {
    match tile_at(numbers) {
        Some(at) => answer.tell(&id_of(at)),
        None => answer.say("no tile"),
    }
}

/// The tile of an id.
fn tile(answer: &mut Answer, id: u64) {
    match tile_of(id) {
        Some(at) => write!(answer, "{}/{}/{}", at.z, at.x, at.y),
        None => answer.say("no tile"),
    }
}

pub(crate) fn range(answer: &mut Answer, value: &[u8]) {
    match byte_range(value) {
        Some(range) => write!(answer, "{} to {}", range.first, range.last),
        None => answer.say("none"),
    }
}

/// The number that digits write.
fn digits(answer: &mut Answer, text: &str) {
    let digits = text.as_bytes();
    if digits.len() == 0 || !are_digits(digits) {
        return answer.say("no digits");
    }
    match digits_number(digits) {
        Some(number) => answer.tell(&number),
        None => answer.say("too great"),
    }
}

/// Two numbers in digits after texts.
fn written(answer: &mut Answer, first: u64, second: u64) {
    let Ok(mut out) = Vec::with_capacity(answer.alloc(), 64) else {
        return answer.refuse();
    };
    push_text(&mut out, b"of ");
    push_number(&mut out, first);
    push_text(&mut out, b", ");
    push_number(&mut out, second);
    push_text(&mut out, b".");
    answer.add(String::from_utf8_lossy(answer.alloc(), &out));
}

/// Answers a line about numbers.
pub(crate) fn answer(answer: &mut Answer, asks: Asks, line: &Line<'_>) {
    let [first, second, ..] = line.numbers;
    match asks {
        Asks::Shape => shape(answer, line.rest),
        Asks::Example => example(answer, line.rest),
        Asks::Nothing => nothing(answer),
        Asks::Spell => spell(answer, line.rest),
        Asks::Zigzag => answer.tell(&zigzag(line.rest.parse::<i64>().unwrap_or(0))),
        Asks::Unzigzag => answer.tell(&unzigzag(first)),
        Asks::Id => id(answer, line.numbers),
        Asks::Place => tile(answer, first),
        Asks::Range => range(answer, line.rest.as_bytes()),
        Asks::Digits => digits(answer, line.rest),
        Asks::Written => written(answer, first, second),
    }
}
