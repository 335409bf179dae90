//! Decodes shapes.

ghost use Rattle.std.specs.Prelude.{◌≡◌, ◌≢◌, ◌+◌, ◌*◌, ◌/◌, ◌<◌, ◌≤◌, ◌⊎◌, Bool, List, [], ◌∷◌, length, map, min, vec_len, vec_capacity, Ok, Err};
ghost use Rattle.std.specs.Prelude.{IfOk, IfErr, OnOk};
ghost use Rattle.reader.specs.Reading.{Reads, Gives};
ghost use Rattle.geometry_commands.specs.Faulty.{ShapeHas};
ghost use Rattle.geometry_commands.specs.Shapes.{shape_view, ShapeView, IsShape, least};
ghost use Rattle.geometry_commands.specs.Ways.{along_at, moved_at};
ghost use Rattle.geometry_commands.specs.Decoding.{command_at, step_at, walk_at, close_at, line_at, line_second, lines_at, points_at, shape_at};
ghost use Rattle.geometry_commands.specs.Identifiers.{id_number};
ghost use Rattle.geometry_commands.specs.Commands.{move_to, line_to};
ghost use Rattle.geometry_commands.specs.declared.point.Pt.{Pt};
ghost use Rattle.geometry_commands.specs.declared.decoding.GeometryFault.TheVariants.{Memory};

use crate::command::CommandId;
use crate::kinds::{Shape, ShapeKind};
use crate::point::Pt;
use pb_wire::unzigzag;
use std::alloc::{AllocError, AllocFailed, Global};
use std::fmt;
use thiserror::Error;

/// Why integers are not a shape of their kind, or that an allocation failed.
#[derive(Clone, Copy, Debug, PartialEq, Eq, Error)]
pub enum GeometryFault {
    /// A command is another than the shape needs, or integers follow the points.
    Command,
    /// A command's count is lower or higher than the kind allows.
    Count,
    /// The integers end before a command or a point that the shape needs.
    Cut,
    /// A coordinate exceeds 64 bits.
    Cursor,
    Memory,
}

impl fmt::Display for GeometryFault {
    fn fmt<W: fmt::Write>(&self, f: &mut fmt::Formatter<W>) -> fmt::Result {
        f.write_str(match self {
            GeometryFault::Command => "another command than one that must stand there",
            GeometryFault::Count => "a command is done fewer or more times than it may be",
            GeometryFault::Cut => "the integers end inside the shape",
            GeometryFault::Cursor => "a coordinate leaves 64 bits",
            GeometryFault::Memory => "out of memory",
        })
    }
}

impl<T: Drop> From<AllocFailed<T>> for GeometryFault {
    ghost from_gives = { λ _ e. e ≡ Memory };

    fn from(_e: AllocFailed<T>) -> GeometryFault {
        GeometryFault::Memory
    }
}

impl From<AllocError> for GeometryFault {
    ghost from_gives = { λ _ e. e ≡ Memory };

    fn from(_e: AllocError) -> GeometryFault {
        GeometryFault::Memory
    }
}

/// A coordinate after the zigzag encoded step `way`, or `None` if it exceeds 64 bits.
fn along(from: i64, way: u32) -> Option<i64>
    ensures { result ≡ along_at from way }
{
    from.checked_add(unzigzag(u64::from(way)))
}

/// The point after the zigzag encoded steps `dx` and `dy`, or `None` if a coordinate exceeds 64 bits.
#[tactic(auto, unfolding(crate::specs::Ways::led_to, crate::specs::Ways::fits))]
fn moved(from: Pt, dx: u32, dy: u32) -> Option<Pt>
    ensures { result ≡ moved_at from dx dy }
{
    let x = along(from.x, dx)?;
    let y = along(from.y, dy)?;
    Some(Pt { x, y })
}

/// The count of the first command, which must be this one, and the integers after it.
#[tactic(auto, unfolding(crate::specs::Decoding::command_at))]
fn command_of(id: CommandId, ints: &[u32]) -> Result<(u32, &[u32]), GeometryFault>
    ensures exact { Reads (λ x. (x.0, x.1.now)) result (command_at (id_number id) ints.now) }
    ensures behind { IfOk result (λ x. length x.1.now + 1 ≡ length ints.now) }
    ensures memory { result ≢ Err GeometryFault.Memory }
{
    if ints.len() == 0 {
        return Err(GeometryFault::Cut);
    }
    if ints[0] % 8 == id.number() {
        Ok((ints[0] / 8, &ints[1..]))
    } else {
        Err(GeometryFault::Command)
    }
}

/// The point after the step of the first two integers, and the integers after them.
#[tactic(auto, unfolding(crate::specs::Decoding::step_at))]
pub(crate) fn step_of(from: Pt, ints: &[u32]) -> Result<(Pt, &[u32]), GeometryFault>
    ensures exact { Reads (λ x. (x.0, x.1.now)) result (step_at from ints.now) }
    ensures behind { IfOk result (λ x. length x.1.now + 2 ≡ length ints.now) }
    ensures memory { result ≢ Err GeometryFault.Memory }
{
    if ints.len() < 2 {
        return Err(GeometryFault::Cut);
    }
    match moved(from, ints[0], ints[1]) {
        Some(to) => Ok((to, &ints[2..])),
        None => Err(GeometryFault::Cursor),
    }
}

/// Appends `count` points, and returns them with the cursor and the integers that remain. Memory is bounded by the integers
/// that are there, not by `count`.
fn walk<'a>(
    before: Vec<Pt>,
    from: Pt,
    count: u32,
    ints: &'a [u32],
) -> Result<(Vec<Pt>, Pt, &'a [u32]), GeometryFault>
    ensures exact { Gives GeometryFault.Memory (λ x. (x.0.items, x.1, x.2.now)) result (walk_at count before.items from ints.entry.now) }
    ensures behind { IfOk result (λ x. length x.2.now + 2 * count ≡ length ints.entry.now) }
    // An allocation fails only if the vector has no room for the points that the integers hold.
    ensures full { IfErr result (λ fault. fault ≡ GeometryFault.Memory → vec_capacity before < vec_len before + length ints.entry.now / 2) }
{
    let mut points = before;
    points.reserve((count as usize).min(ints.len() / 2))?;
    let mut at = from;
    let mut rest = ints;
    for i in 0..count {
        let (to, after) = step_of(at, rest)?;
        points.push_reserved(to);
        at = to;
        rest = after;
    }
    Ok((points, at, rest))
}

/// The integers after the command that closes a ring.
#[tactic(auto, unfolding(crate::specs::Decoding::close_at))]
pub(crate) fn close_of(closed: bool, ints: &[u32]) -> Result<&[u32], GeometryFault>
    ensures exact { Reads (λ x. x.now) result (close_at closed ints.now) }
    ensures memory { result ≢ Err GeometryFault.Memory }
{
    if closed {
        let (count, rest) = command_of(CommandId::ClosePath, ints)?;
        if count == 1 {
            Ok(rest)
        } else {
            Err(GeometryFault::Count)
        }
    } else {
        Ok(ints)
    }
}

/// The integers after the MoveTo to the first point of a line, whose count is 1.
#[tactic(auto, unfolding(crate::specs::Decoding::line_at))]
pub(crate) fn start_of(ints: &[u32]) -> Result<&[u32], GeometryFault>
    ensures found { IfOk result (λ rest. command_at move_to ints.now ≡ Ok (1, rest.now)) }
    ensures behind { IfOk result (λ rest. length rest.now + 1 ≡ length ints.now) }
    ensures fault { IfErr result (λ fault. (closed : Bool) (from : Pt) → line_at closed from ints.now ≡ Err fault) }
    ensures memory { result ≢ Err GeometryFault.Memory }
{
    let (count, rest) = command_of(CommandId::MoveTo, ints)?;
    if count != 1 {
        return Err(GeometryFault::Count);
    }
    Ok(rest)
}

/// The first point of a line, and the integers after it.
pub(crate) fn first_of(from: Pt, ints: &[u32]) -> Result<(Pt, &[u32]), GeometryFault>
    ensures exact { Reads (λ x. (x.0 ∷ [], x.0, x.1.now)) result (walk_at 1 [] from ints.now) }
    ensures behind { IfOk result (λ x. length x.1.now + 2 ≡ length ints.now) }
    ensures memory { result ≢ Err GeometryFault.Memory }
{
    step_of(from, ints)
}

/// The first point of a line, in a vector with room for `count` more, or for as many as the integers hold.
fn first_in(alloc: Global, first: Pt, count: u32, ints: &[u32]) -> Result<Vec<Pt>, GeometryFault>
    ensures first { IfOk result (λ points. points.items ≡ first ∷ []) }
    ensures room { IfOk result (λ points. 1 + min count (length ints.now / 2) ≤ vec_capacity points) }
    ensures memory { IfErr result (λ fault. fault ≡ GeometryFault.Memory) }
{
    let most = (count as usize).min(ints.len() / 2);
    let mut points = Vec::with_capacity(alloc, 1 + most)?;
    points.push_reserved(first);
    Ok(points)
}

/// The count of points of a line after its first one, and the integers after this command.
#[tactic(auto, unfolding(crate::specs::Decoding::line_second, crate::specs::Decoding::line_others))]
pub(crate) fn count_of(closed: bool, ints: &[u32]) -> Result<(u32, &[u32]), GeometryFault>
    ensures found { IfOk result (λ x. (command_at line_to ints.now ≡ Ok (x.0, x.1.now)) × (least closed ≤ x.0)) }
    ensures fault { IfErr result (λ fault. (points : List Pt) (at : Pt) → line_second closed (points, at, ints.now) ≡ Err fault) }
    ensures memory { result ≢ Err GeometryFault.Memory }
{
    let (count, rest) = command_of(CommandId::LineTo, ints)?;
    let least = if closed { 2 } else { 1 };
    if count < least {
        return Err(GeometryFault::Count);
    }
    Ok((count, rest))
}

/// A line, or a ring if `closed`, with the cursor and the integers that remain.
#[tactic(auto, unfolding(crate::specs::Decoding::line_at, crate::specs::Decoding::line_second, crate::specs::Decoding::line_others))]
fn line_of(
    alloc: Global,
    closed: bool,
    from: Pt,
    ints: &[u32],
) -> Result<(Vec<Pt>, Pt, &[u32]), GeometryFault>
    ensures exact { Gives GeometryFault.Memory (λ x. (x.0.items, x.1, x.2.now)) result (line_at closed from ints.now) }
    ensures long { OnOk result (3 ≤ length ints.now) }
    ensures memory { IfErr result (λ fault. fault ≡ GeometryFault.Memory → 3 ≤ length ints.now) }
{
    let rest = start_of(ints)?;
    let (first, rest) = first_of(from, rest)?;
    let (count, rest) = count_of(closed, rest)?;
    let begun = first_in(alloc, first, count, rest)?;
    let (points, at, rest) = walk(begun, first, count, rest)?;
    let rest = close_of(closed, rest)?;
    Ok((points, at, rest))
}

/// Lines, or rings if `closed`, each from the end of the one before it.
fn lines_of(alloc: Global, closed: bool, ints: &[u32]) -> Result<Vec<Vec<Pt>>, GeometryFault>
    ensures exact { Gives GeometryFault.Memory (λ v. map (λ l. l.items) v.items) result (lines_at closed ints.now) }
    ensures memory { IfErr result (λ fault. fault ≡ GeometryFault.Memory → 3 ≤ length ints.now) }
{
    let mut lines = Vec::new(alloc);
    let mut at = Pt::ORIGIN;
    let mut rest = ints;
    while rest.len() > 0 {
        let (line, to, after) = line_of(alloc, closed, at, rest)?;
        lines.push(line)?;
        at = to;
        rest = after;
    }
    Ok(lines)
}

/// The count of points, at least one, and the integers after this command.
#[tactic(auto, unfolding(crate::specs::Decoding::points_at, crate::specs::Decoding::points_behind))]
pub(crate) fn points_count(ints: &[u32]) -> Result<(u32, &[u32]), GeometryFault>
    requires { 0 < length ints.now }
    ensures found { IfOk result (λ x. (command_at move_to ints.now ≡ Ok (x.0, x.1.now)) × (0 < x.0)) }
    ensures behind { IfOk result (λ x. length x.1.now + 1 ≡ length ints.now) }
    ensures fault { IfErr result (λ fault. points_at ints.now ≡ Err fault) }
    ensures memory { result ≢ Err GeometryFault.Memory }
{
    let (count, rest) = command_of(CommandId::MoveTo, ints)?;
    if count == 0 {
        return Err(GeometryFault::Count);
    }
    Ok((count, rest))
}

/// The points of one move.
#[tactic(auto, unfolding(crate::specs::Decoding::points_at, crate::specs::Decoding::points_behind, crate::specs::Decoding::points_end))]
fn points_of(alloc: Global, ints: &[u32]) -> Result<Vec<Pt>, GeometryFault>
    ensures exact { Gives GeometryFault.Memory (λ v. v.items) result (points_at ints.now) }
    ensures memory { IfErr result (λ fault. fault ≡ GeometryFault.Memory → 3 ≤ length ints.now) }
{
    if ints.len() == 0 {
        return Ok(Vec::new(alloc));
    }
    let (count, rest) = points_count(ints)?;
    let (points, _at, rest) = walk(Vec::new(alloc), Pt::ORIGIN, count, rest)?;
    if rest.len() == 0 {
        Ok(points)
    } else {
        Err(GeometryFault::Command)
    }
}

/// The shape of this kind that the integers encode, by the commands that its kind allows (Mapbox Vector Tile 2.1,
/// 4.3.4): points are one MoveTo, a line is a MoveTo and a LineTo, a ring has a ClosePath after its LineTo of two
/// points or more. No integers are an empty shape of their kind. Rings may turn either way and may have no area, and a
/// point may equal the one before it.
///
/// The first fault from left to right is returned. Memory is bounded by the integers that are there, not by the counts of
/// commands: if points are missing, the fault is `Cut`.
pub fn decode(alloc: Global, kind: ShapeKind, ints: &[u32]) -> Result<Shape, GeometryFault>
    // The integers encode what is returned.
    ensures found { IfOk result (λ s. IsShape kind ints.now (shape_view s)) }
    // What the integers encode is returned, unless an allocation fails.
    ensures only { (s : ShapeView) → IsShape kind ints.now s → Gives GeometryFault.Memory shape_view result (Ok s) }
    // The fault is one that the integers have.
    ensures fault { IfErr result (λ d. d ≢ GeometryFault.Memory → ShapeHas kind ints.now d) }
    ensures exact { Gives GeometryFault.Memory shape_view result (shape_at kind ints.now) }
    // An allocation fails only if there are integers for a command and a point, or all of them are stored.
    ensures memory { IfErr result (λ d. d ≡ GeometryFault.Memory → (kind ≡ ShapeKind.Unknown) ⊎ (3 ≤ length ints.now)) }
{
    shape_of(alloc, kind, ints)
}

/// The shape, as the definitions read it.
#[tactic(auto, unfolding(crate::specs::Decoding::shape_at))]
fn shape_of(alloc: Global, kind: ShapeKind, ints: &[u32]) -> Result<Shape, GeometryFault>
    ensures exact { Gives GeometryFault.Memory shape_view result (shape_at kind ints.now) }
    ensures memory { IfErr result (λ d. d ≡ GeometryFault.Memory → (kind ≡ ShapeKind.Unknown) ⊎ (3 ≤ length ints.now)) }
{
    match kind {
        ShapeKind::Points => Ok(Shape::Points(points_of(alloc, ints)?)),
        ShapeKind::Lines => Ok(Shape::Lines(lines_of(alloc, false, ints)?)),
        ShapeKind::Polygons => Ok(Shape::Rings(lines_of(alloc, true, ints)?)),
        ShapeKind::Unknown => Ok(Shape::Raw(ints.to_vec(alloc)?)),
    }
}
