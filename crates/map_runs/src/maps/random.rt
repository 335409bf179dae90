//! Edits of a map that look random. `model/map_random.py` draws the same numbers in the same order.
use super::map::{delete, edited, put};
use crate::lines::byte;
use cached_map::CachedMap;
use feature_model::{EditValue, Feature, Geometry, Tag, World};
use script_bytes::{Answer, short};
use std::alloc::{AllocError, Global};

/// How far the points of a line or a ring are apart, at most: of a feature whose first zoom is below 6, and of another one.
const FAR: u64 = 1 << 26;

const NEAR: u64 = 1 << 16;

/// A generator of numbers, xorshift64: a state of 64 bits other than 0.
#[derive(Drop)]
struct Chance {
    state: u64,
}

impl Chance {
    /// The next number, modulo a count. The state is combined by exclusive or with itself shifted by 13 bits to the left, then by 7 to the
    /// right, then by 17 to the left. The number is the state without its last 20 bits.
    fn below(&mut self, count: u64) -> u64 {
        let left = self.state ^ (self.state << 13);
        let right = left ^ (left >> 7);
        self.state = right ^ (right << 17);
        (self.state >> 20).checked_rem(count).unwrap_or(0)
    }
}

/// A column or row: one in four is anywhere, the others are close to one of eight.
fn coordinate(chance: &mut Chance) -> u32 {
    if chance.below(4) == 0 {
        return short(chance.below(1 << 32));
    }
    let first = chance.below(8).wrapping_mul(1 << 29);
    short(first.wrapping_add(chance.below(1 << 18)))
}

/// A point to the right of another one and below it, or at the end of the world.
fn beside(chance: &mut Chance, first: World, apart: u64) -> World {
    World {
        x: first.x.saturating_add(short(chance.below(apart))),
        y: first.y.saturating_add(short(chance.below(apart))),
    }
}

/// Mostly one point, else a line or a ring of three.
fn any_geometry(alloc: Global, chance: &mut Chance, apart: u64) -> Result<Geometry, AllocError> {
    let first = World {
        x: coordinate(chance),
        y: coordinate(chance),
    };
    let kind = chance.below(32);
    if kind > 2 {
        return Ok(Geometry::Points(vec![in alloc; first]?));
    }
    let second = beside(chance, first, apart);
    let third = beside(chance, first, apart);
    let lines = vec![in alloc; vec![in alloc; first, second, third]?]?;
    if kind > 0 {
        return Ok(Geometry::Lines(lines));
    }
    Ok(Geometry::Polygons(vec![in alloc; lines]?))
}

/// Adds a tag, whose value is one of twelve.
fn add_tag(alloc: Global, tags: &mut Vec<Tag>, key: &str, number: u64) -> Result<(), AllocError> {
    let value = match number {
        0 => EditValue::Truth(true),
        1 => EditValue::Negative(-5),
        2 => EditValue::Text(String::from_str(alloc, "x")?),
        _ => EditValue::Natural(number),
    };
    let key = String::from_str(alloc, key)?;
    tags.push(Tag { key, value })?;
    Ok(())
}

/// A feature with up to three tags.
fn any_feature(alloc: Global, chance: &mut Chance) -> Result<Feature, AllocError> {
    let name = if chance.below(2) == 0 { "a" } else { "b" };
    let minzoom = chance.below(15);
    let maxzoom = minzoom.wrapping_add(chance.below(6));
    let mut feature = Feature {
        layer: String::from_str(alloc, name)?,
        minzoom: byte(minzoom),
        maxzoom: byte(maxzoom),
        geometry: any_geometry(alloc, chance, if minzoom < 6 { FAR } else { NEAR })?,
        tags: Vec::new(alloc),
    };
    for key in ["a", "b", "c"] {
        if chance.below(4) == 0 {
            add_tag(alloc, &mut feature.tags, key, chance.below(12))?;
        }
    }
    Ok(feature)
}

/// Makes an edit of an id below `ids`, and answers as the lines `put` and `delete` do. One in `one_in` edits is a deletion.
fn edit(answer: &mut Answer, map: &mut CachedMap, chance: &mut Chance, ids: u64, one_in: u64) {
    let id = chance.below(ids);
    if chance.below(one_in) == 0 {
        return delete(answer, map, id);
    }
    match any_feature(answer.alloc(), chance) {
        Ok(feature) => put(answer, map, id, feature),
        Err(_) => answer.refuse(),
    }
}

/// Makes edits: their count, `ids`, the first state of the generator, and `one_in`. It answers with the last edit, how many deletions
/// found a feature, and a digest: of the counts of features after each edit, 31 times that of those before, plus the count, modulo 2^64.
pub(crate) fn make_random(answer: &mut Answer, map: &mut CachedMap, numbers: [u64; 8]) {
    let [count, ids, state, one_in, ..] = numbers;
    let mut chance = Chance { state };
    let mut taken = 0u64;
    let mut digest = 0u64;
    for _ in 0..count {
        edit(answer, map, &mut chance, ids, one_in);
        if answer.text().ends_with("true") {
            taken = taken.wrapping_add(1);
        }
        answer.clear();
        let features = map.store().len() as u64;
        digest = digest.wrapping_mul(31).wrapping_add(features);
    }
    edited(answer, map.last(), map);
    write!(answer, ", {taken} taken, digest {digest}");
}
