//! Checks shapes without storing their points.

ghost use Rattle.std.specs.Prelude.{◌≡◌, List, Ok, Err, IsOk, IfOk, IfErr, OnOk};
ghost use Rattle.geometry_commands.specs.Faulty.{ShapeHas};
ghost use Rattle.geometry_commands.specs.Shapes.{ShapeView, IsShape};
ghost use Rattle.geometry_commands.specs.Decoding.{walk_at, line_at, lines_at, points_at, shape_at};
ghost use Rattle.geometry_commands.specs.declared.point.Pt.{Pt};

use crate::decoding::{
    GeometryFault, close_of, count_of, first_of, points_count, start_of, step_of,
};
use crate::kinds::ShapeKind;
use crate::point::Pt;

/// The cursor after `count` points, and the integers that remain.
fn walk_past(from: Pt, count: u32, ints: &[u32]) -> Result<(Pt, &[u32]), GeometryFault>
    ensures found { (before : List Pt) → IfOk result (λ x. (all : List Pt) × (walk_at count before from ints.now ≡ Ok (all, x.0, x.1.now))) }
    ensures fault { (before : List Pt) → IfErr result (λ fault. walk_at count before from ints.now ≡ Err fault) }
{
    let mut at = from;
    let mut rest = ints;
    for i in 0..count {
        let (to, after) = step_of(at, rest)?;
        at = to;
        rest = after;
    }
    Ok((at, rest))
}

/// The cursor after a line, or a ring if `closed`, and the integers that remain.
fn line_past(closed: bool, from: Pt, ints: &[u32]) -> Result<(Pt, &[u32]), GeometryFault>
    ensures found { IfOk result (λ x. (all : List Pt) × (line_at closed from ints.now ≡ Ok (all, x.0, x.1.now))) }
    ensures fault { IfErr result (λ fault. line_at closed from ints.now ≡ Err fault) }
{
    let rest = start_of(ints)?;
    let (first, rest) = first_of(from, rest)?;
    let (count, rest) = count_of(closed, rest)?;
    let (at, rest) = walk_past(first, count, rest)?;
    let rest = close_of(closed, rest)?;
    Ok((at, rest))
}

/// Checks that the integers are lines, or rings if `closed`.
fn check_lines(closed: bool, ints: &[u32]) -> Result<(), GeometryFault>
    ensures found { OnOk result (IsOk (lines_at closed ints.now)) }
    ensures fault { IfErr result (λ fault. lines_at closed ints.now ≡ Err fault) }
{
    let mut at = Pt::ORIGIN;
    let mut rest = ints;
    while rest.len() > 0 {
        let (to, after) = line_past(closed, at, rest)?;
        at = to;
        rest = after;
    }
    Ok(())
}

/// Checks that the integers are the points of one move.
fn check_points(ints: &[u32]) -> Result<(), GeometryFault>
    ensures found { OnOk result (IsOk (points_at ints.now)) }
    ensures fault { IfErr result (λ fault. points_at ints.now ≡ Err fault) }
{
    if ints.len() == 0 {
        return Ok(());
    }
    let (count, rest) = points_count(ints)?;
    let (_at, rest) = walk_past(Pt::ORIGIN, count, rest)?;
    if rest.len() == 0 {
        Ok(())
    } else {
        Err(GeometryFault::Command)
    }
}

/// Checks that the integers encode a shape of this kind, as `decode` does, without making the shape. It allocates nothing.
///
/// The first fault from left to right is returned, the one that `decode` returns.
pub fn check_shape(kind: ShapeKind, ints: &[u32]) -> Result<(), GeometryFault>
    // The integers encode a shape.
    ensures found { OnOk result ((s : ShapeView) × IsShape kind ints.now s) }
    // The fault is one that the integers have.
    ensures fault { IfErr result (λ d. ShapeHas kind ints.now d) }
    ensures read { OnOk result (IsOk (shape_at kind ints.now)) }
    ensures exact { IfErr result (λ d. shape_at kind ints.now ≡ Err d) }
{
    check_kind(kind, ints)
}

/// The same, as the definitions read the shape.
#[tactic(auto, unfolding(crate::specs::Decoding::shape_at))]
fn check_kind(kind: ShapeKind, ints: &[u32]) -> Result<(), GeometryFault>
    ensures found { OnOk result (IsOk (shape_at kind ints.now)) }
    ensures fault { IfErr result (λ fault. shape_at kind ints.now ≡ Err fault) }
{
    match kind {
        ShapeKind::Points => check_points(ints),
        ShapeKind::Lines => check_lines(false, ints),
        ShapeKind::Polygons => check_lines(true, ints),
        ShapeKind::Unknown => Ok(()),
    }
}
