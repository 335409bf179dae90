//! Lines over a map from numbers to numbers.
use super::blocks;
use crate::lines::Line;
use number_map::NumberMap;
use script_bytes::Answer;

/// What a line over a map from numbers asks for.
#[derive(Clone, Copy)]
pub(crate) enum Asks {
    Set,
    Unset,
    Get,
    From,
    FillUp,
    FillDown,
    Thin,
    Serve,
    Entries,
    Blocks,
}

/// How many entries there are, by two counts, whether each is found, and what they make together in their order: 31 times what those before
/// an entry do, plus 7 times its number, plus its value, all modulo 2^64.
fn entries(answer: &mut Answer, map: &NumberMap<u64>) {
    let mut count = 0u64;
    let mut digest = 0u64;
    let mut found = "each found";
    for block in map.blocks() {
        for (number, value) in block.entries() {
            let part = number.wrapping_mul(7).wrapping_add(*value);
            count = count.wrapping_add(1);
            digest = digest.wrapping_mul(31).wrapping_add(part);
            if map.get(*number) != Some(value) {
                found = "not each found";
            }
        }
    }
    let len = map.len();
    let is_empty = map.is_empty();
    write!(
        answer,
        "{count} entries, {len} by count, empty {is_empty}, {found}, digest {digest}"
    );
}

fn set(answer: &mut Answer, map: &mut NumberMap<u64>, number: u64, value: u64) {
    if map.room().is_err() {
        return answer.refuse();
    }
    answer.show(&map.insert(number, value));
}

/// Gives so many numbers values from 0 up, in this order or from the last one down: each number is so much above the one before, from
/// 0 up.
fn fill(answer: &mut Answer, map: &mut NumberMap<u64>, is_up: bool, count: u64, step: u64) {
    for place in 0..count {
        let behind = count.wrapping_sub(place).wrapping_sub(1);
        let index = if is_up { place } else { behind };
        if map.room().is_err() {
            return answer.refuse();
        }
        let _before = map.insert(index.wrapping_mul(step), index);
    }
    answer.say("filled");
}

/// Takes out a count of such numbers, but one in a number of them: how many were there.
fn thin(answer: &mut Answer, map: &mut NumberMap<u64>, [count, step, one_in, ..]: [u64; 8]) {
    let mut taken = 0u64;
    for index in 0..count {
        if index.checked_rem(one_in) != Some(1) && map.remove(index.wrapping_mul(step)).is_some() {
            taken = taken.wrapping_add(1);
        }
    }
    write!(answer, "{taken} taken");
}

/// Room that is made beforehand serves a number that is taken out, given a value, looked up and taken out again.
fn serve(answer: &mut Answer, map: &mut NumberMap<u64>, number: u64) {
    if map.room().is_err() {
        return answer.refuse();
    }
    let was_there = map.remove(number).is_some();
    let before = map.insert(number, 1);
    let found = map.get(number).copied();
    let removed = map.remove(number);
    write!(answer, "{was_there} {before:?} {found:?} {removed:?}");
}

/// Answers a line over a map from numbers.
pub(crate) fn answer(answer: &mut Answer, map: &mut NumberMap<u64>, asks: Asks, line: &Line<'_>) {
    let [first, second, ..] = line.numbers;
    match asks {
        Asks::Set => set(answer, map, first, second),
        Asks::Unset => answer.show(&map.remove(first)),
        Asks::Get => answer.show(&map.get(first)),
        Asks::From => answer.show(&map.first_from(first)),
        Asks::FillUp => fill(answer, map, true, first, second),
        Asks::FillDown => fill(answer, map, false, first, second),
        Asks::Thin => thin(answer, map, line.numbers),
        Asks::Serve => serve(answer, map, first),
        Asks::Entries => entries(answer, map),
        Asks::Blocks => blocks(answer, map.blocks().len(), first),
    }
}
