//! Geometries at the start of bytes.

ghost use Rattle.std.specs.Prelude.{◌≡◌, ℕ};
ghost use Rattle.edit_text.specs.Trusted.{shape_in, geometry_in};
ghost use Rattle.edit_text.specs.Views.{geometry_view};

use crate::lists::{GeometryText, Lines, Points, Polygons};
use crate::trusted_numbers::byte_in;
use feature_model::{LINES_KIND, POINTS_KIND};

/// The lists of a geometry of this kind.
#[tactic(auto, unfolding(crate::specs::Trusted::shape_in))]
fn shape_in(kind: u8, bytes: &[u8]) -> (GeometryText<'_>, &[u8])
    ensures shape { geometry_view result.0 ≡ (shape_in kind bytes.now).0 }
    ensures rest { result.1.now ≡ (shape_in kind bytes.now).1 }
{
    match kind {
        POINTS_KIND => {
            let (points, rest) = Points::front(bytes);
            (GeometryText::Points(points), rest)
        }
        LINES_KIND => {
            let (lines, rest) = Lines::front(bytes);
            (GeometryText::Lines(lines), rest)
        }
        _ => {
            let (polygons, rest) = Polygons::front(bytes);
            (GeometryText::Polygons(polygons), rest)
        }
    }
}

/// The geometry at the start of bytes, whose first one is its kind, and the bytes after it.
#[tactic(auto, unfolding(crate::specs::Trusted::geometry_in))]
pub(crate) fn geometry_in(bytes: &[u8]) -> (GeometryText<'_>, &[u8])
    ensures geometry { geometry_view result.0 ≡ (geometry_in bytes.now).0 }
    ensures rest { result.1.now ≡ (geometry_in bytes.now).1 }
{
    let (kind, rest) = byte_in(bytes);
    shape_in(kind, rest)
}
