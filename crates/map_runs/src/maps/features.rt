//! Lines about a feature or an edit as JSON.
ghost use Rattle.std.specs.Prelude.{IfOk};
ghost use Rattle.feature_model.specs.Limits.{FeatureFits, IsAllowed};
ghost use Rattle.edit_text.specs.Views.{feature_view};

use super::map::put;
use super::texts::{batch_text, deleted, record};
use crate::lines::Line;
use cached_map::CachedMap;
use edit_json::{batch_from_json, checked_from_json, feature_from_json, feature_to_json};
use edit_text::{FeatureText, StoredFeature, encode_change};
use feature_model::{Change, EditFault, Feature, MAX_ZOOM, Seen, check};
use script_bytes::{Answer, expanded, parted};
use serde_json::Value;
use std::alloc::Global;
use tile_cutter::{bounding_box, check_reach, cover_count, tiles_met};

/// What a line about JSON or about the texts of edits asks for.
#[derive(Clone, Copy)]
pub(crate) enum Asks {
    Json,
    Changes,
    Checked,
    Reach,
    Text,
    Covers,
    Put,
    Deleted,
    Record,
}

/// The feature as the text of this number, or the limit that it breaks.
fn stored(alloc: Global, id: u64, feature: &Feature) -> Result<StoredFeature, EditFault>
    ensures { IfOk result (λ s. IsAllowed s.0 s.1) }
{
    check(id, feature)?;
    Ok(StoredFeature::of(alloc, id, feature)?)
}

/// A feature that is kept as its text, as JSON.
pub(crate) fn kept(answer: &mut Answer, feature: FeatureText<'_>)
    requires { FeatureFits (feature_view feature) }
{
    match feature_to_json(answer.alloc(), feature) {
        Ok(value) => answer.add(value.to_string(answer.alloc())),
        Err(_) => answer.refuse(),
    }
}

/// A feature as JSON, by way of its text, or the limit that it breaks.
fn shown(answer: &mut Answer, id: u64, feature: &Feature) {
    match stored(answer.alloc(), id, feature) {
        Ok(stored) => kept(answer, stored.view()),
        Err(fault) => answer.tell(&fault),
    }
}

/// The text of an edit of a JSON value.
fn changes(answer: &mut Answer, value: &Value) {
    match batch_from_json(answer.alloc(), value) {
        Ok(changes) => batch_text(answer, changes),
        Err(fault) => answer.tell(&fault),
    }
}

/// The text of an edit of these changes, and what its author saw of each number.
fn checked_text(answer: &mut Answer, changes: Vec<Change>, seen: &[Seen]) {
    batch_text(answer, changes);
    for one in seen {
        answer.push(' ');
        match &one.feature {
            Some(feature) => shown(answer, one.id, feature),
            None => answer.say("null"),
        }
    }
}

/// The same of a JSON value.
fn checked(answer: &mut Answer, value: &Value) {
    match checked_from_json(answer.alloc(), value) {
        Ok((changes, seen)) => checked_text(answer, changes, &seen),
        Err(fault) => answer.tell(&fault),
    }
}

/// The text that gives a number a feature.
fn put_text(answer: &mut Answer, id: u64, feature: Feature) {
    if let Err(fault) = check(id, &feature) {
        return answer.tell(&fault);
    }
    let change = Change::Put { id, feature };
    answer.made_bytes(encode_change(answer.alloc(), &change));
}

/// How many tiles a feature covers, and whether these are too many.
fn reach_of(answer: &mut Answer, feature: &Feature) {
    if feature.maxzoom > MAX_ZOOM {
        return answer.tell(&EditFault::Zoom);
    }
    answer.tell(&cover_count(feature));
    if let Err(fault) = check_reach(feature) {
        write!(answer, ": {fault}");
    }
}

/// The columns and rows of a zoom that a feature covers.
fn covered(answer: &mut Answer, zoom: u64, feature: &Feature) {
    if zoom > u64::from(MAX_ZOOM) {
        return answer.tell(&EditFault::Zoom);
    }
    match stored(answer.alloc(), 0, feature) {
        Ok(stored) => {
            let range = tiles_met(bounding_box(stored.view()), zoom as u8);
            write!(
                answer,
                "{} to {}, {} to {}",
                range.x0, range.x1, range.y0, range.y1
            );
        }
        Err(fault) => answer.tell(&fault),
    }
}

/// What is told of a feature, which no edit gets.
fn told_of(answer: &mut Answer, asks: Asks, number: u64, feature: &Feature) {
    match asks {
        Asks::Json => shown(answer, 0, feature),
        Asks::Covers => covered(answer, number, feature),
        _ => reach_of(answer, feature),
    }
}

/// Answers a line about the feature of a JSON value.
fn answer_feature(
    answer: &mut Answer,
    map: &mut CachedMap,
    asks: Asks,
    number: u64,
    value: &Value,
) {
    match feature_from_json(answer.alloc(), value) {
        Ok(feature) => match asks {
            Asks::Put => put(answer, map, number, feature),
            Asks::Text => put_text(answer, number, feature),
            _ => told_of(answer, asks, number, &feature),
        },
        Err(fault) => answer.tell(&fault),
    }
}

/// Answers a line about a JSON value.
fn answer_value(answer: &mut Answer, map: &mut CachedMap, asks: Asks, number: u64, value: &Value) {
    match asks {
        Asks::Changes => changes(answer, value),
        Asks::Checked => checked(answer, value),
        _ => answer_feature(answer, map, asks, number, value),
    }
}

/// Answers a line about a text of JSON, in which `<COUNT:TEXT>` means that text `COUNT` times.
fn answer_json(answer: &mut Answer, map: &mut CachedMap, asks: Asks, number: u64, json: &str) {
    let Some(text) = answer.granted(expanded(answer.alloc(), json)) else {
        return;
    };
    match Value::from_str(answer.alloc(), text.as_str()) {
        Ok(value) => answer_value(answer, map, asks, number, &value),
        Err(_) => answer.say("Json"),
    }
}

/// Answers a line about JSON, which follows a number in some, or about the texts of edits.
pub(crate) fn answer(answer: &mut Answer, map: &mut CachedMap, asks: Asks, line: &Line<'_>) {
    let number = line.numbers[0];
    match asks {
        Asks::Deleted => deleted(answer, number),
        Asks::Record => record(answer, line.rest),
        Asks::Text | Asks::Covers | Asks::Put => {
            answer_json(answer, map, asks, number, parted(line.rest).1)
        }
        _ => answer_json(answer, map, asks, number, line.rest),
    }
}
