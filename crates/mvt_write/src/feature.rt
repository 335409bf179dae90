//! The messages of features.

ghost use Rattle.std.specs.Prelude.{◌≡◌, ◌++◌, ◌<◌, ◌^◌, [], IfOk, IfSome, OnOk};
ghost use Rattle.mvt_write.specs.Parts.{type_of, tags_head, geometry_head, message_of};
ghost use Rattle.mvt_write.specs.Written.{id_written, bytes_field};

use crate::field::{put_head, put_joined, put_number};
use geometry_commands::ShapeKind;
use mvt_layer::field_numbers::{
    FEATURE_GEOMETRY, FEATURE_ID, FEATURE_TAGS, FEATURE_TYPE, LAYER_FEATURES, LINESTRING_TYPE,
    POINT_TYPE, POLYGON_TYPE, UNKNOWN_TYPE,
};
use std::alloc::{AllocError, Global};

/// The bytes that a head has room for at first: those of an id of 64 bits, and of the number and the length of a field.
const FIRST_HEAD_BYTES: usize = 24;

/// Memory for what a feature's message has before its tags and before its geometry, used again for each feature. Between features
/// `tags` is free for other uses.
#[derive(Drop)]
pub(crate) struct FeatureHeads {
    pub tags: Vec<u8>,
    geometry: Vec<u8>,
}

impl FeatureHeads {
    /// No bytes, and room for most heads.
    pub fn new(alloc: Global) -> Result<Self, AllocError>
        ensures empty { IfOk result (λ heads. (heads.tags.items ≡ []) × (heads.geometry.items ≡ [])) }
    {
        Ok(FeatureHeads {
            tags: Vec::with_capacity(alloc, FIRST_HEAD_BYTES)?,
            geometry: Vec::with_capacity(alloc, FIRST_HEAD_BYTES)?,
        })
    }
}

/// Appends the field of a feature's id, if it has one.
fn put_id(out: &mut Vec<u8>, id: Option<u64>) -> Result<(), AllocError>
    ensures written { OnOk result (out.new.items ≡ out.old.items ++ id_written id) }
    ensures fits { IfSome id (λ id. id < 2 ^ 64) }
{
    match id {
        Some(id) => put_number(out, FEATURE_ID, id),
        None => Ok(()),
    }
}

/// The number of a geometry's type (Mapbox Vector Tile 2.1, 4.3.4).
fn type_number(kind: ShapeKind) -> u64
    ensures { result ≡ type_of kind }
{
    match kind {
        ShapeKind::Unknown => UNKNOWN_TYPE,
        ShapeKind::Points => POINT_TYPE,
        ShapeKind::Lines => LINESTRING_TYPE,
        ShapeKind::Polygons => POLYGON_TYPE,
    }
}

/// Replaces `head` with what a feature's message has before the packed indices of its tags.
fn start_tags(head: &mut Vec<u8>, id: Option<u64>, tags: &[u8]) -> Result<(), AllocError>
    ensures written { OnOk result (head.new.items ≡ tags_head id tags.now) }
    ensures fits { IfSome id (λ id. id < 2 ^ 64) }
{
    head.clear();
    put_id(head, id)?;
    if tags.is_empty() {
        return Ok(());
    }
    put_head(head, FEATURE_TAGS, tags.len())
}

/// Replaces `head` with what a feature's message has between the indices and the packed integers of its geometry.
fn start_geometry(head: &mut Vec<u8>, kind: ShapeKind, geometry: &[u8]) -> Result<(), AllocError>
    ensures { OnOk result (head.new.items ≡ geometry_head kind geometry.now) }
{
    head.clear();
    put_number(head, FEATURE_TYPE, type_number(kind))?;
    put_head(head, FEATURE_GEOMETRY, geometry.len())
}

/// Appends the message of a feature (Mapbox Vector Tile 2.1, 4.2) as a field of its layer, by the packed indices of its tags and
/// the packed integers of its geometry.
pub(crate) fn put_message(
    out: &mut Vec<u8>,
    heads: &mut FeatureHeads,
    id: Option<u64>,
    tags: &[u8],
    kind: ShapeKind,
    geometry: &[u8],
) -> Result<(), AllocError>
    ensures written { OnOk result (out.new.items ≡ out.old.items ++ bytes_field LAYER_FEATURES (message_of id tags.now kind geometry.now)) }
    ensures fits { IfSome id (λ id. id < 2 ^ 64) }
{
    start_tags(&mut heads.tags, id, tags)?;
    start_geometry(&mut heads.geometry, kind, geometry)?;
    put_joined(
        out,
        LAYER_FEATURES,
        &heads.tags,
        tags,
        &heads.geometry,
        geometry,
    )
}
