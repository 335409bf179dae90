//! Encodes shapes.

ghost use Rattle.std.specs.Prelude.{◌≡◌, ◌+◌, ◌*◌, ◌<◌, ◌≤◌, ◌^◌, ◌++◌, ◌-ℤ◌, pos, length, map, false, true, vec_len, vec_capacity, IfOk, OnOk};
ghost use Rattle.pb_wire.specs.Zigzag.{zigzagged};
ghost use Rattle.geometry_commands.specs.Commands.{IsShort, IsNear, AreNear, step, steps, points_spelled, origin};
ghost use Rattle.geometry_commands.specs.Encodable.{CanSpell, CanSpellLine, CanSpellLines};
ghost use Rattle.geometry_commands.specs.Shapes as shapes;
ghost use Rattle.geometry_commands.specs.Shapes.{last_of, line_spelled, lines_spelled, IsLine, IsShape};
ghost use Rattle.geometry_commands.specs.Ways.{FitsPt};
ghost use Rattle.std.specs.List.{AllByRecursion};

use crate::command::CommandId;
use crate::kinds::ShapeKind;
use crate::point::Pt;
use pb_wire::zigzag;
use std::alloc::{AllocError, Global};

/// The way along one axis, zigzag encoded.
pub(crate) fn way(from: i64, to: i64) -> u32
    requires { IsShort (to -ℤ from) }
    ensures { result ≡ zigzagged (to -ℤ from) }
{
    zigzag(to - from) as u32
}

/// Appends the two numbers of the way from one point to the next, for which there is room.
#[tactic(auto, unfolding(crate::specs::Ways::fits))]
fn put_step(out: &mut Vec<u32>, from: Pt, to: Pt)
    requires near { IsNear from to }
    requires room { vec_len out.old + 2 ≤ vec_capacity out.old }
    ensures step { out.new.items ≡ out.old.items ++ step from to }
    ensures fits { FitsPt to }
    ensures len { vec_len out.new ≡ vec_len out.old + 2 }
    ensures capacity { vec_capacity out.new ≡ vec_capacity out.old }
{
    out.push_reserved(way(from.x, to.x));
    out.push_reserved(way(from.y, to.y));
}

/// Appends the way from a point along the others, for which there is room, and returns its end.
fn put_steps(out: &mut Vec<u32>, from: Pt, points: &[Pt]) -> Pt
    requires near { AreNear from points.now }
    requires room { vec_len out.old + 2 * length points.now ≤ vec_capacity out.old }
    ensures steps { out.new.items ≡ out.old.items ++ steps from points.now }
    ensures last { result ≡ last_of from points.now }
    ensures fits { AllByRecursion FitsPt points.now }
    ensures len { vec_len out.new ≡ vec_len out.old + 2 * length points.now }
    ensures capacity { vec_capacity out.new ≡ vec_capacity out.old }
{
    let mut at = from;
    for point in points {
        put_step(out, at, *point);
        at = *point;
    }
    at
}

/// The number of command integers of a ring: MoveTo, LineTo and ClosePath.
const LINE_INTEGERS: usize = 3;

/// Appends a line, or a ring if `closed`, and returns the cursor after it.
fn put_line(out: &mut Vec<u32>, closed: bool, from: Pt, line: &[Pt]) -> Result<Pt, AllocError>
    requires { CanSpellLine closed from line.now }
    ensures line { OnOk result (out.new.items ≡ out.old.items ++ line_spelled closed from line.now) }
    ensures last { IfOk result (λ at. at ≡ last_of from line.now) }
    ensures whole { OnOk result (IsLine closed line.now) }
{
    let first = line[0];
    let others = &line[1..];
    out.reserve(LINE_INTEGERS + 2 * line.len())?;
    out.push_reserved(CommandId::MoveTo.times(1));
    put_step(out, from, first);
    out.push_reserved(CommandId::LineTo.times(others.len() as u32));
    let last = put_steps(out, first, others);
    if closed {
        out.push_reserved(CommandId::ClosePath.times(1));
    }
    Ok(last)
}

/// Lines, or rings, each from where the one before it ends.
fn encode_all(alloc: Global, closed: bool, lines: &[Vec<Pt>]) -> Result<Vec<u32>, AllocError>
    requires { CanSpellLines closed origin (map (λ l. l.items) lines.now) }
    ensures spelled { IfOk result (λ v. v.items ≡ lines_spelled closed origin (map (λ l. l.items) lines.now)) }
    ensures whole { OnOk result (AllByRecursion (IsLine closed) (map (λ l. l.items) lines.now)) }
{
    let mut out = Vec::new(alloc);
    let mut at = Pt::ORIGIN;
    for line in lines {
        at = put_line(&mut out, closed, at, line.as_slice())?;
    }
    Ok(out)
}

/// The integers of points: one command to move, and the way along all of them (Mapbox Vector Tile 2.1, 4.3.4.2).
///
/// There is at least one point, and fewer than 2^29. From point to point, the first counted from (0,0), each
/// coordinate changes by at most 2^31 - 1. The only error is that an allocation fails.
pub fn encode_points(alloc: Global, points: &[Pt]) -> Result<Vec<u32>, AllocError>
    requires { CanSpell (shapes.points points.now) }
    ensures spelled { IfOk result (λ v. v.items ≡ points_spelled points.now) }
    // The integers are these points.
    ensures shape { IfOk result (λ v. IsShape ShapeKind.Points v.items (shapes.points points.now)) }
{
    let mut out = Vec::with_capacity(alloc, 1 + 2 * points.len())?;
    out.push_reserved(CommandId::MoveTo.times(points.len() as u32));
    put_steps(&mut out, Pt::ORIGIN, points);
    Ok(out)
}

/// The integers of lines: for each a command to move, and one to draw along its other points (Mapbox Vector Tile 2.1,
/// 4.3.4.3).
///
/// A line has at least two points, and fewer than 2^29. From point to point, the first counted from (0,0) and the
/// first of each further line from the last of the one before it, each coordinate changes by at most 2^31 - 1. There
/// may be no lines. The only error is that an allocation fails.
pub fn encode_lines(alloc: Global, lines: &[Vec<Pt>]) -> Result<Vec<u32>, AllocError>
    requires { CanSpell (shapes.lines (map (λ l. l.items) lines.now)) }
    ensures spelled { IfOk result (λ v. v.items ≡ lines_spelled false origin (map (λ l. l.items) lines.now)) }
    // The integers are these lines.
    ensures shape { IfOk result (λ v. IsShape ShapeKind.Lines v.items (shapes.lines (map (λ l. l.items) lines.now))) }
{
    encode_all(alloc, false, lines)
}

/// The integers of rings: for each a command to move, one to draw along its other points, and one to close it (Mapbox
/// Vector Tile 2.1, 4.3.4.4).
///
/// A ring has at least three points, the first not repeated at its end, and fewer than 2^29. From point to point, the
/// first counted from (0,0) and the first of each further ring from the last of the one before it, each coordinate
/// changes by at most 2^31 - 1. There may be no rings. The only error is that an allocation fails.
pub fn encode_rings(alloc: Global, rings: &[Vec<Pt>]) -> Result<Vec<u32>, AllocError>
    requires { CanSpell (shapes.rings (map (λ l. l.items) rings.now)) }
    ensures spelled { IfOk result (λ v. v.items ≡ lines_spelled true origin (map (λ l. l.items) rings.now)) }
    // The integers are these rings.
    ensures shape { IfOk result (λ v. IsShape ShapeKind.Polygons v.items (shapes.rings (map (λ l. l.items) rings.now))) }
{
    encode_all(alloc, true, rings)
}
