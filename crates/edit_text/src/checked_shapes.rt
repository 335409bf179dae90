//! Where geometries at the start of bytes end, found without any memory.

ghost use Rattle.std.specs.Prelude.{ℕ, []};
ghost use Rattle.feature_model.specs.declared.limits.TheConstants.{MIN_RING};
ghost use Rattle.reader.specs.Reading.{Reads};
ghost use Rattle.edit_text.specs.Checking.{Checks};
ghost use Rattle.edit_text.specs.Reading.{many_at, count_at, point_at, line_at, lines_at, polygons_at, geometry_behind, geometry_at};

use crate::fault::TextFault;
use crate::fields::{read_byte, read_u16};
use crate::lists::POINT_LEN;
use feature_model::{LINES_KIND, MIN_LINE, MIN_RING, POINTS_KIND, POLYGONS_KIND, count_fits};

/// A count of at least `least`, and at most `MAX_ELEMENTS`.
fn read_count(bytes: &[u8], least: usize) -> Result<(u16, &[u8]), TextFault>
    ensures { Reads (λ r. (r.0, r.1.now)) result (count_at least bytes.now) }
{
    let (count, rest) = read_u16(bytes)?;
    if !count_fits(usize::from(count), least) {
        return Err(TextFault::Bad);
    }
    Ok((count, rest))
}

/// The bytes after `count` points.
fn check_points(count: u16, bytes: &[u8]) -> Result<&[u8], TextFault>
    ensures { Checks (λ rest. rest.now) result (many_at (λ _. point_at) count [] bytes.now) }
{
    let len = POINT_LEN * usize::from(count);
    if bytes.len() < len {
        return Err(TextFault::Cut);
    }
    Ok(&bytes[len..])
}

/// The bytes after a list of at least `least` points.
#[tactic(auto, unfolding(crate::specs::Reading::line_at))]
fn check_line(bytes: &[u8], least: usize) -> Result<&[u8], TextFault>
    ensures { Checks (λ rest. rest.now) result (line_at least bytes.now) }
{
    let (count, rest) = read_count(bytes, least)?;
    check_points(count, rest)
}

/// The bytes after `count` lines or rings, each of at least `least` points.
fn check_each_line(count: u16, bytes: &[u8], least: usize) -> Result<&[u8], TextFault>
    ensures { Checks (λ rest. rest.now) result (many_at (λ _. line_at least) count [] bytes.now) }
{
    let mut rest = bytes;
    for _ in 0..count {
        rest = check_line(rest, least)?;
    }
    Ok(rest)
}

/// The bytes after a list of lines or rings, each of at least `least` points.
#[tactic(auto, unfolding(crate::specs::Reading::lines_at))]
fn check_lines(bytes: &[u8], least: usize) -> Result<&[u8], TextFault>
    ensures { Checks (λ rest. rest.now) result (lines_at least bytes.now) }
{
    let (count, rest) = read_count(bytes, 1)?;
    check_each_line(count, rest, least)
}

/// The bytes after `count` polygons.
fn check_each_polygon(count: u16, bytes: &[u8]) -> Result<&[u8], TextFault>
    ensures { Checks (λ rest. rest.now) result (many_at (λ _. lines_at MIN_RING) count [] bytes.now) }
{
    let mut rest = bytes;
    for _ in 0..count {
        rest = check_lines(rest, MIN_RING)?;
    }
    Ok(rest)
}

/// The bytes after a list of polygons.
#[tactic(auto, unfolding(crate::specs::Reading::polygons_at))]
fn check_polygons(bytes: &[u8]) -> Result<&[u8], TextFault>
    ensures { Checks (λ rest. rest.now) result (polygons_at bytes.now) }
{
    let (count, rest) = read_count(bytes, 1)?;
    check_each_polygon(count, rest)
}

/// The bytes after the lists of a geometry of this kind.
#[tactic(auto, unfolding(crate::specs::Reading::geometry_behind))]
fn check_shape(kind: u8, bytes: &[u8]) -> Result<&[u8], TextFault>
    ensures { Checks (λ rest. rest.now) result (geometry_behind kind bytes.now) }
{
    match kind {
        POINTS_KIND => check_line(bytes, 1),
        LINES_KIND => check_lines(bytes, MIN_LINE),
        POLYGONS_KIND => check_polygons(bytes),
        _ => Err(TextFault::Bad),
    }
}

/// The bytes after a kind and the lists of a geometry of it.
#[tactic(auto, unfolding(crate::specs::Reading::geometry_at))]
pub(crate) fn check_geometry(bytes: &[u8]) -> Result<&[u8], TextFault>
    ensures { Checks (λ rest. rest.now) result (geometry_at bytes.now) }
{
    let (kind, rest) = read_byte(bytes)?;
    check_shape(kind, rest)
}
