//! Features as words of a line.
//!
//! `p 0 2 points 0,0 5,5 t='x*3 n=-7 b=true` is a feature of layer `p` on zooms 0 to 2 with two points and three tags: `t` is the text `xxx`,
//! `n` a number and `b` a truth value. `/` separates lines, and the rings of a polygon; `|` separates polygons.
use feature_model::{EditValue, Feature, Geometry, Tag, World};
use script_bytes::Answer;
use script_disks::pair_in;
use std::alloc::Global;
use std::mem;

/// What the words of a feature have added so far.
#[derive(Drop)]
struct Parts {
    /// The points of the last line or ring.
    ring: Vec<World>,
    /// The rings before it, of the last polygon.
    rings: Vec<Vec<World>>,
    /// The polygons before it.
    polygons: Vec<Vec<Vec<World>>>,
    tags: Vec<Tag>,
}

/// Ends the last ring, and begins another one.
fn end_ring(alloc: Global, parts: &mut Parts, answer: &mut Answer) {
    let ring = mem::replace(&mut parts.ring, Vec::new(alloc));
    answer.note(parts.rings.push(ring));
}

/// Ends the last polygon with its last ring, and begins another one.
fn end_polygon(alloc: Global, parts: &mut Parts, answer: &mut Answer) {
    end_ring(alloc, parts, answer);
    let rings = mem::replace(&mut parts.rings, Vec::new(alloc));
    answer.note(parts.polygons.push(rings));
}

/// A zoom, and what follows it.
pub(crate) fn zoom_in(text: &str) -> Option<(u8, &str)> {
    let (zoom, rest) = text.split_once(' ')?;
    Some((zoom.parse::<u8>().ok()?, rest))
}

/// Letters, repeated by the count after `*`.
fn letters_in(alloc: Global, word: &str, answer: &mut Answer) -> Option<String> {
    let (letters, count) = word.split_once('*').unwrap_or((word, "1"));
    let count = count.parse::<u16>().ok()?;
    let mut text = String::new(alloc);
    for _ in 0..count {
        answer.note(text.push_str(letters));
    }
    Some(text)
}

fn number_in(word: &str) -> Option<EditValue> {
    if word.starts_with('-') {
        return word.parse::<i64>().ok().map(EditValue::Negative);
    }
    word.parse::<u64>().ok().map(EditValue::Natural)
}

fn value_in(alloc: Global, word: &str, answer: &mut Answer) -> Option<EditValue> {
    if let Some(letters) = word.strip_prefix('\'') {
        return letters_in(alloc, letters, answer).map(EditValue::Text);
    }
    match word {
        "true" => Some(EditValue::Truth(true)),
        "false" => Some(EditValue::Truth(false)),
        _ => number_in(word),
    }
}

/// Appends a tag, if the word is a value.
fn add_tag(alloc: Global, tags: &mut Vec<Tag>, key: &str, word: &str, answer: &mut Answer) {
    let Some(value) = value_in(alloc, word, answer) else {
        return answer.reject();
    };
    if let Some(key) = answer.granted(String::from_str(alloc, key)) {
        answer.note(tags.push(Tag { key, value }));
    }
}

/// Adds a point or a separator, if the word is one.
fn add_shape(alloc: Global, parts: &mut Parts, word: &str, answer: &mut Answer) {
    if let Some((x, y)) = pair_in(word, ',') {
        return answer.note(parts.ring.push(World { x, y }));
    }
    match word {
        "/" => end_ring(alloc, parts, answer),
        "|" => end_polygon(alloc, parts, answer),
        _ => answer.reject(),
    }
}

/// Adds a point, a separator or a tag, if the word is one.
fn add_word(alloc: Global, parts: &mut Parts, word: &str, answer: &mut Answer) {
    match word.split_once('=') {
        Some((key, value)) => add_tag(alloc, &mut parts.tags, key, value, answer),
        None => add_shape(alloc, parts, word, answer),
    }
}

/// Takes the geometry of this kind. Points and lines are those of the last polygon. `None` if there is no such kind.
fn take_geometry(
    alloc: Global,
    polygons: &mut Vec<Vec<Vec<World>>>,
    kind: &str,
) -> Option<Geometry> {
    match kind {
        "points" => polygons.pop()?.pop().map(Geometry::Points),
        "lines" => polygons.pop().map(Geometry::Lines),
        "polygons" => Some(Geometry::Polygons(mem::replace(polygons, Vec::new(alloc)))),
        _ => None,
    }
}

/// What a feature begins with, and the remaining words.
#[derive(Clone, Copy)]
struct Front<'a> {
    layer: &'a str,
    minzoom: u8,
    maxzoom: u8,
    kind: &'a str,
    words: &'a str,
}

/// The front of a feature.
fn front_in(text: &str) -> Option<Front<'_>> {
    let (layer, rest) = text.split_once(' ')?;
    let (minzoom, rest) = zoom_in(rest)?;
    let (maxzoom, rest) = zoom_in(rest)?;
    let (kind, words) = rest.split_once(' ')?;
    Some(Front {
        layer,
        minzoom,
        maxzoom,
        kind,
        words,
    })
}

/// Takes the geometry and the tags of a feature. `None` if there is no geometry of its kind.
fn take_feature(
    alloc: Global,
    front: Front<'_>,
    parts: &mut Parts,
    answer: &mut Answer,
) -> Option<Feature> {
    let layer = answer.granted(String::from_str(alloc, front.layer))?;
    let geometry = take_geometry(alloc, &mut parts.polygons, front.kind)?;
    Some(Feature {
        layer,
        minzoom: front.minzoom,
        maxzoom: front.maxzoom,
        geometry,
        tags: mem::replace(&mut parts.tags, Vec::new(alloc)),
    })
}

/// Parses a feature. `None` if the text doesn't begin as one, or has no kind of geometry. Words that are no part of it are rejected.
pub(crate) fn feature_in(alloc: Global, text: &str, answer: &mut Answer) -> Option<Feature> {
    let front = front_in(text)?;
    let mut parts = Parts {
        ring: Vec::new(alloc),
        rings: Vec::new(alloc),
        polygons: Vec::new(alloc),
        tags: Vec::new(alloc),
    };
    for word in front.words.split_whitespace() {
        add_word(alloc, &mut parts, word, answer);
    }
    end_polygon(alloc, &mut parts, answer);
    let feature = take_feature(alloc, front, &mut parts, answer);
    drop(parts);
    feature
}
